// The part that gets each next rank (document 01, 'The order of parts').
#![tactic(auto)]

ghost use Rattle.std.specs.Prelude.{◌≡◌, ℕ, ◌<◌, ◌≤◌, get_or, take};
ghost use Rattle.words.specs.Limits.{most_parts};
ghost use Rattle.station.specs.Station.{station_of};
ghost use Rattle.order.specs.Order.{order};
ghost use Rattle.ordering.specs.Numbers.{part_numbers, RanksOf};

use reachability::walk::{Stack, Walker};
use unranked::Unranked;
use words::limits::MOST_PARTS;
use words::{Part, Rank};

mod unranked;

// Part by rank, in the first n places.
pub fn order_parts(walker: &Walker, stack: &mut Stack) -> [Part; MOST_PARTS]
    ensures by_rank { take (station_of walker.now.list.now).parts (part_numbers result) ≡ order (station_of walker.now.list.now) }
    ensures inside { (k : ℕ) → get_or (part_numbers result) k 0 < most_parts }
{
    let mut part = [walker.source(); MOST_PARTS];
    let mut unranked = Unranked::all_but_source(walker);
    for k in 1..walker.parts() {
        let w = unranked.choose(stack);
        part[k] = w;
        unranked.remove(w);
    }
    part
}

// Rank by part, from part by rank: the last rank first.
pub fn ranks_of(part: [Part; MOST_PARTS], n: usize) -> [Rank; MOST_PARTS]
    requires count { n ≤ most_parts }
    requires inside { (k : ℕ) → get_or (part_numbers part) k 0 < most_parts }
    ensures { RanksOf (take n (part_numbers part)) result }
{
    let mut rank = [Rank::of(0); MOST_PARTS];
    for k in (0..n).rev() {
        rank[part[k].0 as usize] = Rank::of(k as u16);
    }
    rank
}
