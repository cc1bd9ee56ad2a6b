// In which direction a cable's corners are read, found by a look along its line and at its end runs.
ghost use Rattle.std.specs.Prelude.{◌≡◌, map};
ghost use Rattle.geometry.specs.Spots.{spot_in};
ghost use Rattle.validation.specs.Alone as tests;
ghost use Rattle.drawing.specs.Reading.{word_spot};
ghost use Rattle.validation.specs.Facing.{line_over, faces_forward};
ghost use Rattle.directions.specs.Code.{run_of, level_first, trace_of, points_along};

use crate::strands::{Line, spot_in};
use geometry::Spot;

// A level run or an upright run of nonzero length.
fn is_run(level: bool, p: Spot, q: Spot) -> bool
    ensures { result ≡ run_of level (spot_in p) (spot_in q) }
{
    if level {
        p.y == q.y && p.x != q.x
    } else {
        p.x == q.x && p.y != q.y
    }
}

// The numbers from a to b and those from c to d have one in common.
#[tactic(auto, unfolding(validation::specs::Alone::overlap))]
fn overlap(a: u16, b: u16, c: u16, d: u16) -> bool
    ensures { result ≡ tests.overlap a b c d }
{
    a.min(b) <= c.max(d) && c.min(d) <= a.max(b)
}

// Two runs share a spot.
#[tactic(auto, unfolding(validation::specs::Alone::runs_share))]
fn runs_share(p: Spot, q: Spot, r: Spot, t: Spot) -> bool
    ensures { result ≡ tests.runs_share (spot_in p) (spot_in q) (spot_in r) (spot_in t) }
{
    overlap(p.x, q.x, r.x, t.x) && overlap(p.y, q.y, r.y, t.y)
}

// The first run is level.
fn starts_level(first: Spot, corners: &[u32], last: Spot) -> bool
    ensures { result ≡ level_first (spot_in first) (map word_spot corners.now) (spot_in last) }
{
    match corners.first() {
        Some(&word) => first.y == spot_in(word).y,
        None => first.y == last.y,
    }
}

// 'alternating level and upright runs of nonzero length'
pub fn alternates(first: Spot, corners: &[u32], last: Spot) -> bool
    ensures { result ≡ tests.alternates (line_over (spot_in first) (map word_spot corners.now) (spot_in last)) }
{
    let mut level = starts_level(first, corners, last);
    let mut p = first;
    for &word in corners {
        let q = spot_in(word);
        if !is_run(level, p, q) {
            return false;
        }
        level = !level;
        p = q;
    }
    is_run(level, p, last)
}

// Whether the corners are read from the first of the two spots.
pub fn faces_forward(first: Spot, corners: &[u32], last: Spot) -> bool
    ensures { result ≡ faces_forward (spot_in first) (map word_spot corners.now) (spot_in last) }
{
    let &[one, .., other] = corners else {
        return true;
    };
    !runs_share(first, spot_in(one), spot_in(other), last) && alternates(first, corners, last)
}

impl Line<'_> {
    pub fn alternates(self) -> bool
        ensures { result ≡ tests.alternates (points_along (trace_of self.entry)) }
    {
        alternates(self.first, self.corners, self.last)
    }

    pub fn faces_forward(self) -> bool
        ensures { let t = trace_of self.entry in result ≡ faces_forward t.first t.corners t.last }
    {
        faces_forward(self.first, self.corners, self.last)
    }
}
