// The spots of a cable's line in one row, each visited once: its points, and what lies between two neighbouring points.
ghost use Rattle.std.specs.Prelude.{◌-◌, ◌<◌, ◌≤◌};
ghost use Rattle.geometry.specs.Spots.{spot_in};
ghost use Rattle.sweep.specs.Visits.{level_visits, open_visits};
ghost use Rattle.directions.specs.Code.{strand_in, trace_of};
ghost use Rattle.sweeping.specs.Code.{point_visits, visits_along, Visited};

use boards::{Boards, Visit};
use directions::strands::{Line, Strand, spot_in};
use geometry::{Spot, lies_between};

// A point of the line, where it is in the row: a corner is on a level and on an upright run, an end counts as neither.
fn visit_point(boards: &mut Boards, strand: Strand, spot: Spot, corner: bool)
    requires { spot.x < 4096 }
    ensures { Visited (strand_in strand) boards.old (point_visits boards.old.row (spot_in spot) corner) boards.new }
{
    if spot.y == boards.row {
        let visit = Visit {
            column: spot.x as usize,
            level: corner,
            upright: corner,
        };
        boards.visit(strand, visit);
    }
}

// Columns of a level run.
fn visit_columns(boards: &mut Boards, strand: Strand, from: usize, to: usize)
    requires { to ≤ 4096 }
    ensures { Visited (strand_in strand) boards.old (level_visits from (to - from)) boards.new }
{
    for column in from..to {
        let visit = Visit {
            column,
            level: true,
            upright: false,
        };
        boards.visit(strand, visit);
    }
}

// What lies strictly between two points of a level or an upright run, where it is in the row.
fn visit_between(boards: &mut Boards, strand: Strand, p: Spot, q: Spot)
    requires from_bound { p.x < 4096 }
    requires to_bound { q.x < 4096 }
    ensures { Visited (strand_in strand) boards.old (open_visits boards.old.row (spot_in p) (spot_in q)) boards.new }
{
    if p.y == q.y {
        if p.y == boards.row {
            let from = p.x.min(q.x) as usize + 1;
            visit_columns(boards, strand, from, p.x.max(q.x) as usize);
        }
    } else if lies_between(boards.row, p.y, q.y) {
        let visit = Visit {
            column: p.x as usize,
            level: false,
            upright: true,
        };
        boards.visit(strand, visit);
    }
}

// The whole line in the row, from its first point over its corners to its last.
pub fn sweep_line(boards: &mut Boards, strand: Strand, line: Line<'_>)
    ensures { Visited (strand_in strand) boards.old (visits_along boards.old.row (trace_of line.entry)) boards.new }
{
    visit_point(boards, strand, line.first, false);
    let mut p = line.first;
    for &word in line.corners {
        let q = spot_in(word);
        visit_between(boards, strand, p, q);
        visit_point(boards, strand, q, true);
        p = q;
    }
    visit_between(boards, strand, p, line.last);
    visit_point(boards, strand, line.last, false);
}
