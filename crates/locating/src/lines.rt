// Whether a cable's line has a spot.
ghost use Rattle.std.specs.Prelude.{◌≡◌, ◌&&◌, min, max, leb};
ghost use Rattle.geometry.specs.Spots.{spot_in};
ghost use Rattle.geometry.specs.Crossing.{between};
ghost use Rattle.validation.specs.Alone.{on_line};
ghost use Rattle.directions.specs.Code.{trace_of, points_along};

use directions::strands::{Line, spot_in};
use geometry::Spot;

// A number from a to b.
fn is_within(a: u16, b: u16, k: u16) -> bool
    ensures { result ≡ (leb (min a b) k && leb k (max a b)) }
{
    a.min(b) <= k && k <= a.max(b)
}

// 'all spots from one point straight to the next, both included'
#[tactic(auto, unfolding(geometry::specs::Crossing::between))]
fn is_between(p: Spot, q: Spot, spot: Spot) -> bool
    ensures { result ≡ between (spot_in p) (spot_in q) (spot_in spot) }
{
    is_within(p.x, q.x, spot.x) && is_within(p.y, q.y, spot.y)
}

// 'A cable's line is all its runs': from its first point over its corners to its last.
pub fn passes(line: Line<'_>, spot: Spot) -> bool
    ensures { result ≡ on_line (points_along (trace_of line.entry)) (spot_in spot) }
{
    let mut p = line.first;
    for &word in line.corners {
        let q = spot_in(word);
        if is_between(p, q, spot) {
            return true;
        }
        p = q;
    }
    is_between(p, line.last, spot)
}
