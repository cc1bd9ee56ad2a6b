// The bottom and the top connection, and the rows that they take.
ghost use Rattle.std.specs.Prelude.{◌≡◌};
ghost use Rattle.ranking.specs.Arrays.{graph_in};
ghost use Rattle.layout.specs.Columns.{bottom_line, top_line};
ghost use Rattle.placement.specs.Courses.{ConnectionsOf};

use crate::Columns;
use incidence::sequence::{incoming_cables, outgoing_cables};
use ranking::graph::Graph;
use words::Rank;

// What all courses share: d and e of document 01, and the lines at the bottom and at the top connection.
#[derive(Clone, Copy, Debug, PartialEq, Eq)]
pub struct Connections {
    pub bottom_rows: u16,
    pub top_rows: u16,
    pub bottom_line: usize,
    pub top_line: usize,
}

// 'the one to the second-ranked part leaves downward': the line at the bottom connection, or the count of lines where s has fewer than
// four, as the definitions of both connections say it.
fn bottom_line(graph: &Graph) -> usize
    ensures { result ≡ bottom_line (graph_in graph.now) }
{
    outgoing_cables(graph, Rank::of(0)).fourth_or(graph.cables)
}

// 'the cable from the last-ranked part but one climbs over the top': the line at the top connection, or the count of lines where t has
// fewer than four.
fn top_line(graph: &Graph, columns: &Columns) -> usize
    ensures { result ≡ top_line (graph_in graph.now) }
{
    let last = Rank::of((graph.parts - 1) as u16);
    incoming_cables(graph, &columns.cables, last).fourth_or(graph.cables)
}

// 'Let d be 1 if s has four cables and 0 otherwise, and e the same for t': exactly then there is a connection.
pub fn connections_of(graph: &Graph, columns: &Columns) -> Connections
    ensures { ConnectionsOf (graph_in graph.now) result }
{
    let bottom_line = bottom_line(graph);
    let top_line = top_line(graph, columns);
    Connections {
        bottom_rows: u16::from(bottom_line < graph.cables),
        top_rows: u16::from(top_line < graph.cables),
        bottom_line,
        top_line,
    }
}
