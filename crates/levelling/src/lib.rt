// Signal levels at every part (request 2026-08): one pass over the ranks, in which each part looks at its own cables. In the field's terms it
// finds the shortest and the longest path from the source to every vertex of a directed acyclic graph. The output itself holds the levels of
// the parts that the pass has been at.
#![tactic(auto)]

use checks::{Fault, Refusal};
use listing::fields::part_count;
use ranking::{Ranking, check_and_rank};
use reachability::adjacency::Adjacency;
use signals::decibels::both_behind;
use signals::sorts::{check_sorts, sort_of};
use words::limits::MOST_PARTS;

mod arrivals;
mod pairs;

ghost use Rattle.std.specs.Prelude.{◌≡◌, ◌*◌, length};
ghost use Rattle.checks.specs.Checks.{Clear};
ghost use Rattle.station.specs.Station.{station_of};
ghost use Rattle.order.specs.Checks.{all_checks};
ghost use Rattle.ranking.specs.Ranking.{RankingOf};
ghost use Rattle.levels.specs.Outcome.{level_floats, FindsLevels};
ghost use Rattle.levels.specs.Readings.{RowFits};

// The levels of every part, in an output that is as long as there are levels.
#[tactic(auto, using(order::proofs::Passed::words_10, order::proofs::Passed::list_wired))]
fn store(list: &[u32], sorts: &[u32], ranking: &Ranking, output: &mut [f32])
    requires clear { Clear all_checks list.now }
    requires ranking_of { RankingOf (station_of list.now) ranking.now }
    requires row_fits { RowFits (station_of list.now).parts sorts.now }
    requires output_len { length output.old ≡ 2 * (station_of list.now).parts }
    ensures { output.new ≡ level_floats (station_of list.now) sorts.now }
{
    let n = part_count(list);
    let adjacency = Adjacency::of(list);
    let mut passed = [false; MOST_PARTS];
    for &part in &ranking.part[..n] {
        let p = part.0 as usize;
        let before = arrivals::incoming(&adjacency, &passed, output, part);
        let behind = both_behind(before, sort_of(sorts[p]));
        pairs::put(output, p, behind);
        passed[p] = true;
    }
}

// 'For each part .. the least and the greatest level in dB', the count of whose floats is the result, or why the list, the second row or the output is sent back. Behind what is
// written the output stays as it was.
pub fn find_levels(list: &[u32], sorts: &[u32], output: &mut [f32]) -> Result<usize, Refusal>
    ensures { FindsLevels list.now sorts.now output.old output.new result }
{
    let ranking = check_and_rank(list)?;
    check_sorts(list, sorts)?;
    let floats = 2 * part_count(list);
    if output.len() < floats {
        return Err(Refusal {
            fault: Fault::OutputTooShort,
            place: floats,
        });
    }
    store(list, sorts, &ranking, &mut output[..floats]);
    Ok(floats)
}
