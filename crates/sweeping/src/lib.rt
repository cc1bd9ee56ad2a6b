// The lines of a sheet that break the rules (request 2026-09), found by a sweep over the rows of its head: in each row every spot of a line
// is visited once, and two tables by column tell what was there before. In the field's terms it is a sweep line over rectilinear paths.
#![tactic(auto)]

use crate::rows::{Sweep, find_spans};
use boards::Boards;
use directions::choose_directions;
use listing::fields::cable_count;
use words::limits::MOST_CABLES;

mod lines;
mod rows;
mod spans;

ghost use Rattle.std.specs.Prelude.{◌≡◌, length, get_or};
ghost use Rattle.checks.specs.Checks.{Clear};
ghost use Rattle.station.specs.Station.{station_of};
ghost use Rattle.order.specs.Checks.{all_checks};
ghost use Rattle.validation.specs.Layout.{Follows};
ghost use Rattle.validation.specs.Rules.{check20};
ghost use Rattle.sweep.specs.Boards.{lowest_place};
ghost use Rattle.sweep.specs.Judged.{judged};

// A cable that is wrong by itself goes before a pair; the lines that were swept are those before the first that does not alternate.
#[tactic(auto, unfolding(sweep::specs::Judged::judged))]
fn judge(boards: &Boards, lines: usize, cables: usize) -> Option<usize>
    ensures { result ≡ judged (get_or boards.now.alone lowest_place 0) (get_or boards.now.pairs lowest_place 0) lines cables }
{
    let alone = boards.lowest_alone();
    let pair = boards.lowest_pair();
    if alone < lines {
        Some(alone)
    } else if lines < cables {
        Some(lines)
    } else if pair < lines {
        Some(pair)
    } else {
        None
    }
}

// 20, 'a line that breaks the rules', of a list that passed and a sheet that follows the layout.
#[tactic(auto, using(order::proofs::Passed::words_10, order::proofs::Passed::lines_most))]
pub fn check_lines(list: &[u32], sheet: &[u32]) -> Option<usize>
    requires clear { Clear all_checks list.now }
    requires follows { Follows (station_of list.now).parts (length (station_of list.now).cables) sheet.now }
    ensures { result ≡ check20 (station_of list.now) sheet.now }
{
    let mut forward = [false; MOST_CABLES];
    let lines = choose_directions(list, sheet, &mut forward);
    let spans = find_spans(list, sheet, &forward, lines);
    let sweep = Sweep {
        list,
        sheet,
        forward: &forward,
        lines,
        spans: &spans,
    };
    let mut boards = Boards::blank(lines as u32);
    sweep.sweep_rows(&mut boards);
    judge(&boards, lines, cable_count(list))
}
