// The layout's numbers as they stand on a spaced sheet (2026-06), and check 14.
ghost use Rattle.std.specs.Prelude.{◌≡◌, None};
ghost use Rattle.drawing.specs.Spacing.{spaced, check13};
ghost use Rattle.placement.specs.Laid.{course_in};
ghost use Rattle.placement.specs.Arrays.{layout_in};
ghost use Rattle.layout.specs.Courses.{spaced_course, CourseFits};
ghost use Rattle.measuring.specs.Heads.{IsHead, head_check};

use drawing::spacing::Spacing;
use placement::{Course, Layout};
use words::limits::MOST_FIELD;

// The two numbers of a sheet's head.
#[derive(Clone, Copy, Debug, PartialEq, Eq)]
pub struct Head {
    pub width: u32,
    pub height: u32,
}

// 'the greatest x plus the margin, and the greatest y plus the margin'; on the grid these are m - n + 1 and n - 1 + d + e.
pub fn head_of(layout: &Layout, spacing: Spacing) -> Head
    requires { check13 spacing ≡ None }
    ensures { IsHead (spaced spacing (layout_in layout.now)) result }
{
    let n = layout.graph.parts as u16;
    let m = layout.graph.cables as u16;
    let width = m + 1 - n;
    let height = n - 1 + layout.bottom_rows + layout.top_rows;
    Head {
        width: spacing.column_at(width) + spacing.margin,
        height: spacing.row_at(height) + spacing.margin,
    }
}

// 14: 'a coordinate or head field above 4,095 .., its place the largest such number', which is the larger of the two head fields.
#[tactic(auto, unfolding(crate::specs::Heads::head_check))]
pub fn check14(layout: &Layout, spacing: Spacing) -> Option<usize>
    requires { check13 spacing ≡ None }
    ensures { result ≡ head_check (spaced spacing (layout_in layout.now)) }
{
    let head = head_of(layout, spacing);
    let largest = head.width.max(head.height) as usize;
    (largest > MOST_FIELD).then_some(largest)
}

// A cable's course on the sheet.
pub fn space_course(c: Course, spacing: Spacing) -> Course
    requires spacing_value { check13 spacing ≡ None }
    requires course_fits { CourseFits (spaced_course spacing (course_in c)) }
    ensures { course_in result ≡ spaced_course spacing (course_in c) }
{
    Course {
        from: spacing.space_spot(c.from),
        low: spacing.row_at(c.low) as u16,
        column: spacing.column_at(c.column) as u16,
        high: spacing.row_at(c.high) as u16,
        to: spacing.space_spot(c.to),
    }
}
