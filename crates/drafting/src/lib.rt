// The call that draws a hookup sheet.
#![tactic(auto)]

ghost use Rattle.checks.specs.Checks.{Clear};
ghost use Rattle.station.specs.Station.{station_of};
ghost use Rattle.ranking.specs.Ranking.{RankingOf};
ghost use Rattle.hookup.specs.Checks.{given_checks};
ghost use Rattle.hookup.specs.Answer.{Drew};

use checks::{Fault, Refusal};
use crossings::count_crossings;
use hookup::{Options, Sheet};
use measuring::counts::count_quoted;
use measuring::spacing::check14;
use placement::lay_out;
use prices::check12;
use ranking::{Ranking, check_and_rank, rank_cables};
use writer::quote::put_quoted;

// A list that passed checks 1 to 10, under options that passed 12 and 13, is laid out in its order and measured; numbers too large for
// their fields are refused (14), and then an output too short (11), before a word is written.
fn draw_station(
    list: &[u32],
    sheet: &mut [u32],
    options: Options,
    ranking: &Ranking,
) -> Result<Sheet, Refusal>
    requires clear { Clear (given_checks options) list.now }
    requires ranking_of { RankingOf (station_of list.now) ranking.now }
    ensures { Drew options list.now sheet.old sheet.new result }
{
    let layout = lay_out(rank_cables(list, ranking));
    Fault::NumberTooLarge.refuse(check14(&layout, options.spacing))?;
    let words = count_quoted(&layout, options.discount);
    Fault::OutputTooShort.refuse((sheet.len() < words).then_some(words))?;
    Ok(Sheet {
        words: put_quoted(sheet, ranking, &layout, options.spacing, options.discount),
        crossings: count_crossings(&layout),
    })
}

// The sheet of a list, written to the front of the output, or the first check that applies: what the caller gives is tested before the
// list.
pub fn draw(list: &[u32], sheet: &mut [u32], options: Options) -> Result<Sheet, Refusal>
    ensures { Drew options list.now sheet.old sheet.new result }
{
    Fault::DiscountTooHigh.refuse(check12(options.discount))?;
    Fault::WrongSpacing.refuse(options.spacing.check13())?;
    let ranking = check_and_rank(list)?;
    draw_station(list, sheet, options, &ranking)
}
