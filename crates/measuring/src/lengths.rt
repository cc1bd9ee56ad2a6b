// 'the grid steps along that cable's line' (2026-01).
ghost use Rattle.std.specs.Prelude.{◌≡◌};
ghost use Rattle.drawing.specs.Lengths.{line_length};
ghost use Rattle.layout.specs.Points.{points_of};
ghost use Rattle.placement.specs.Laid.{course_in};
ghost use Rattle.layout.specs.Courses.{LengthFits};

use placement::Course;

// The length of a cable's line: level to its own column and from it, upright in it and at its ends.
pub fn line_length(c: Course) -> u16
    requires { LengthFits (course_in c) }
    ensures { result ≡ line_length (points_of (course_in c)) }
{
    let level = c.from.x.abs_diff(c.column) + c.column.abs_diff(c.to.x);
    let upright = c.from.y.abs_diff(c.low) + (c.high - c.low) + c.high.abs_diff(c.to.y);
    level + upright
}
