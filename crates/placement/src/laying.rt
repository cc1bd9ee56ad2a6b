// The layout, once its columns, its connections and its courses are known.
ghost use Rattle.std.specs.Prelude.{◌≡◌};

use crate::Layout;
use crate::connections::connections_of;
use crate::courses::courses_of;
use crate::placing::columns_of;
use ranking::graph::Graph;

// The layout of a graph.
pub fn lay_out(graph: Graph) -> Layout
    ensures { result.graph ≡ graph }
{
    let columns = columns_of(&graph);
    let connections = connections_of(&graph, &columns);
    let courses = courses_of(&graph, &columns, connections);
    Layout {
        graph,
        columns,
        bottom_rows: connections.bottom_rows,
        top_rows: connections.top_rows,
        courses,
    }
}
