// The crossings of a layout, counted. 2026-02: they are 'all pairs of cables whose lines cross, those that share a part too'.
#![tactic(auto)]

ghost use Rattle.std.specs.Prelude.{◌≡◌, ◌+◌, ◌<◌, drop};
ghost use Rattle.lists.specs.Select.{count};
ghost use Rattle.drawing.specs.Drawing.{route_at, cross_pair, crossings};
ghost use Rattle.layout.specs.Over.{over, courses_cross};
ghost use Rattle.placement.specs.Laid.{course_in};
ghost use Rattle.placement.specs.Arrays.{layout_in};

use geometry::lies_between;
use placement::{Course, Layout};

// The upper level run of c passes over the column of d.
#[tactic(auto, unfolding(layout::specs::Over::over))]
fn passes_over(c: Course, d: Course) -> bool
    ensures { result ≡ over (course_in c) (course_in d) }
{
    d.low < c.high && c.high < d.high && lies_between(d.column, c.column, c.to.x)
}

// Two cables cross: one of them passes over the other.
#[tactic(auto, unfolding(layout::specs::Over::courses_cross))]
fn cross(c: Course, d: Course) -> bool
    ensures { result ≡ courses_cross (course_in c) (course_in d) }
{
    passes_over(c, d) || passes_over(d, c)
}

// The cables behind a line that cross its cable.
fn crossings_of(layout: &Layout, line: usize) -> usize
    requires { line < layout.now.graph.cables }
    ensures { result ≡ count (cross_pair (layout_in layout.now) (route_at (layout_in layout.now) line)) (drop (line + 1) (layout_in layout.now).routes) }
{
    let c = layout.courses[line];
    layout.courses[line + 1..layout.graph.cables]
        .iter()
        .filter(|&&d| cross(c, d))
        .count()
}

// Each cable with those behind it.
pub fn count_crossings(layout: &Layout) -> usize
    ensures { result ≡ crossings (layout_in layout.now) }
{
    (0..layout.graph.cables)
        .map(|line| crossings_of(layout, line))
        .sum()
}
