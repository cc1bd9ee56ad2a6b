// Checks 1 to 10 of a list and the order of its parts (document 01, 'The order of parts') in one call, and the cables in ranks.
#![tactic(auto)]

ghost use Rattle.std.specs.Prelude.{◌≡◌, ◌≤◌};
ghost use Rattle.words.specs.Limits.{most_cables};
ghost use Rattle.station.specs.Station.{station_of};
ghost use Rattle.checks.specs.Checks.{Clear};
ghost use Rattle.station.specs.Checks.{list_checks};
ghost use Rattle.order.specs.Checks.{all_checks};
ghost use Rattle.ranking.specs.Ranking.{RankingOf, Checked};
ghost use Rattle.order.specs.Orientation.{graph_of};
ghost use Rattle.ranking.specs.Arrays.{graph_in};

use crate::graph::{Graph, Span};
use checks::{Fault, Refusal};
use listing::{check_list, fields};
use ordering::{order_parts, ranks_of};
use reachability::walk::{Stack, Walker};
use words::limits::{MOST_CABLES, MOST_PARTS, STACK_PLACES};
use words::{Part, Rank};

pub mod graph;

// The order, by part and by rank: 'arrays .. for rank by part, part by rank', with an entry for each part that a station may have.
#[derive(Clone, Copy)]
pub struct Ranking {
    pub rank: [Rank; MOST_PARTS],
    pub part: [Part; MOST_PARTS],
}

// The order of the parts of a list that passed checks 1 to 10.
fn rank_parts(walker: &Walker, stack: &mut Stack) -> Ranking
    requires { Clear all_checks walker.now.list.now }
    ensures { RankingOf (station_of walker.now.list.now) result }
{
    let part = order_parts(walker, stack);
    let rank = ranks_of(part, walker.parts());
    Ranking { rank, part }
}

// Checks 9 and 10 of a list that passed checks 1 to 8, and the order.
fn rank_station(walker: &Walker) -> Result<Ranking, Refusal>
    requires { Clear list_checks walker.now.list.now }
    ensures { Checked walker.now.list.now result }
{
    let mut stack = [Part(0); STACK_PLACES];
    Fault::UnreachedPart.refuse(walker.unreached_part(&mut stack))?;
    Fault::SeparatingPart.refuse(walker.separating_part(&mut stack))?;
    Ok(rank_parts(walker, &mut stack))
}

// Checks 1 to 10 and the order: what every call makes of a list first that needs its parts in ranks.
#[tactic(auto, using(station::proofs::Passed::wired))]
pub fn check_and_rank(list: &[u32]) -> Result<Ranking, Refusal>
    ensures { Checked list.now result }
{
    if let Err(refusal) = check_list(list) {
        return Err(refusal);
    }
    rank_station(&Walker::new(list))
}

// The cables of a list that passed, in ranks.
pub fn rank_cables(list: &[u32], ranking: &Ranking) -> Graph
    requires clear { Clear all_checks list.now }
    requires ranking_of { RankingOf (station_of list.now) ranking.now }
    ensures result_value { graph_in result ≡ graph_of (station_of list.now) }
    ensures cables_le_most_cables { result.cables ≤ most_cables }
{
    let cables = fields::cable_count(list);
    let none = Rank::of(0);
    let mut spans = [Span {
        lower: none,
        upper: none,
    }; MOST_CABLES];
    for i in 0..cables {
        let a = ranking.rank[fields::one_part(list, i).0 as usize];
        let b = ranking.rank[fields::other_part(list, i).0 as usize];
        spans[i] = Span {
            lower: a.min(b),
            upper: a.max(b),
        };
    }
    Graph {
        parts: fields::part_count(list),
        cables,
        spans,
    }
}
