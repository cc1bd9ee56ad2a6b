// The outgoing and the incoming cables of one rank in their sequence: the bottom or the top connection, where there is one, behind the
// others.
ghost use Rattle.std.specs.Prelude.{◌≡◌, ◌≤◌, length};
ghost use Rattle.order.specs.Graph.{upper};
ghost use Rattle.ranking.specs.Arrays.{graph_in};
ghost use Rattle.layout.specs.Columns.{line_between, outgoing, incoming};
ghost use Rattle.incidence.specs.Incidents.{at, Holds, SetApart};

use crate::collecting::{by_column, by_rank};
use crate::incident::Incident;
use ranking::graph::Graph;
use words::Rank;

// The lowest line among those from one rank to another, or, as its definition says, the count of lines where there is none. 2026-12: 'where several could leave s
// downward or climb over t, the lowest line does'.
fn line_between(graph: &Graph, low: Rank, high: Rank) -> usize
    ensures { result ≡ line_between (graph_in graph.now) low.0 high.0 }
{
    let cables = graph.lines();
    (0..cables.len())
        .find(|&i| cables[i].lower == low && cables[i].upper == high)
        .unwrap_or(cables.len())
}

// Where there are four lines, the lowest from one rank to another is set apart, behind the others.
fn set_apart(mut lines: Incident, graph: &Graph, low: Rank, high: Rank) -> Incident
    ensures { SetApart (line_between (graph_in graph.now) low.0 high.0) lines result }
{
    if lines.count == 4 {
        lines.set_last(line_between(graph, low, high));
    }
    lines
}

// The outgoing cables of rank k. Only s may have four: 'the one to the second-ranked part leaves downward', and 'the other three go left,
// own, right by rising rank'.
pub fn outgoing_cables(graph: &Graph, k: Rank) -> Incident
    ensures { Holds (upper (graph_in graph.now)) result (outgoing (graph_in graph.now) k.0) }
{
    set_apart(by_rank(graph, k), graph, Rank::of(0), Rank::of(1))
}

// The incoming cables of rank k. Only t may have four: 'the cable from the last-ranked part but one climbs over the top', and 'the other
// three .. come in left, below and right'.
pub fn incoming_cables(graph: &Graph, columns: &[u16], k: Rank) -> Incident
    requires { graph.now.cables ≤ length columns.now }
    ensures { Holds (at columns.now) result (incoming (graph_in graph.now) columns.now k.0) }
{
    let n = graph.parts as u16;
    let lines = by_column(graph, columns, k);
    set_apart(lines, graph, Rank::of(n - 2), Rank::of(n - 1))
}
