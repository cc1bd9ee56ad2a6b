// The course of each cable, once all ranks stand.
ghost use Rattle.std.specs.Prelude.{◌≡◌, ℕ, ◌+◌, ◌<◌, length, get_or};
ghost use Rattle.ranking.specs.Arrays.{graph_in};
ghost use Rattle.geometry.specs.Spots.{spot_at, spot_in};
ghost use Rattle.layout.specs.Points.{course_of};
ghost use Rattle.placement.specs.Laid.{course_in, no_course, ColumnsOf};
ghost use Rattle.incidence.specs.Incidents.{at};
ghost use Rattle.placement.specs.Courses.{ConnectionsOf, Reaches, course_by};

use crate::connections::Connections;
use crate::{Columns, Course};
use geometry::Spot;
use ranking::graph::{Graph, Span};
use words::Rank;
use words::limits::MOST_CABLES;

// A cable: its line, the ranks of its lower and its upper part, and its column.
#[derive(Clone, Copy, Debug, PartialEq, Eq)]
pub struct PlacedCable {
    pub line: usize,
    pub span: Span,
    pub column: u16,
}

// 'Rank k stands in row d + k.'
fn part_spot(parts: &[u16], bottom_rows: u16, k: Rank) -> Spot
    requires k_in_bounds { k.0 < length parts.now }
    requires row_fits { bottom_rows + k.0 < 65536 }
    ensures { spot_in result ≡ spot_at (at parts.now k.0) (bottom_rows + k.0) }
{
    Spot {
        x: parts[k.0 as usize],
        y: bottom_rows + k.0,
    }
}

// A cable leaves its part in the part's row and comes in so; the bottom connection 'turns in row 0', and the top connection goes 'to row d
// + n'.
fn course_of(parts: &[u16], connections: Connections, cable: PlacedCable) -> Course
    requires { Reaches (length parts.now) connections cable }
    ensures { course_in result ≡ course_by parts.now connections cable }
{
    let bottom_rows = connections.bottom_rows;
    let n = parts.len() as u16;
    let Span { lower, upper } = cable.span;
    Course {
        from: part_spot(parts, bottom_rows, lower),
        low: if cable.line == connections.bottom_line {
            0
        } else {
            bottom_rows + lower.0
        },
        column: cable.column,
        high: if cable.line == connections.top_line {
            bottom_rows + n
        } else {
            bottom_rows + upper.0
        },
        to: part_spot(parts, bottom_rows, upper),
    }
}

// What stands in the array beyond the last line.
fn no_course() -> Course
    ensures { result ≡ no_course }
{
    let no = Spot { x: 0, y: 0 };
    Course {
        from: no,
        low: 0,
        column: 0,
        high: 0,
        to: no,
    }
}

// The course of every cable, by line.
pub fn courses_of(
    graph: &Graph,
    columns: &Columns,
    connections: Connections,
) -> [Course; MOST_CABLES]
    requires columns_of { ColumnsOf graph.now graph.now.parts columns.now }
    requires connections_of { ConnectionsOf (graph_in graph.now) connections }
    ensures { (i : ℕ) → i < graph.now.cables → course_in (get_or result i no_course) ≡ course_of (graph_in graph.now) i }
{
    let parts = &columns.parts[..graph.parts];
    let mut courses = [no_course(); MOST_CABLES];
    for i in 0..graph.cables {
        let cable = PlacedCable {
            line: i,
            span: graph.spans[i],
            column: columns.cables[i],
        };
        courses[i] = course_of(parts, connections, cable);
    }
    courses
}
