// The columns of cables and parts, rank by rank.
ghost use Rattle.std.specs.Prelude.{◌≡◌, [], ◌∷◌, ◌++◌, map, ℕ, ◌+◌, ◌≤◌, ◌<◌, length, get_or, take};
ghost use Rattle.words.specs.Limits.{most_parts};
ghost use Rattle.lists.specs.Stores.{set_each};
ghost use Rattle.incidence.specs.Incidents.{lines_in};
ghost use Rattle.placement.specs.Laid.{ColumnsOf};
ghost use Rattle.placement.specs.Placements.{PlacementFits, Opens, moved_by, column_by, port_columns};

use crate::Columns;
use incidence::incident::Incident;
use incidence::sequence::{incoming_cables, outgoing_cables};
use ports::figures::{Placement, Port, placement_of};
use ranking::graph::Graph;
use words::Rank;
use words::limits::{MOST_CABLES, MOST_PARTS};

// Where the column x is, once the part stands.
#[tactic(auto, unfolding(layout::specs::Columns::moved))]
fn moved(placement: Placement, x: u16) -> u16
    requires { x + placement.left + placement.right < 65536 }
    ensures { result ≡ moved_by placement x }
{
    if x < placement.column {
        x
    } else if x == placement.column {
        x + placement.left
    } else {
        x + placement.left + placement.right
    }
}

// Every column moves to where it is, once the part stands. That the placement fits is a clause, since it is so of these columns alone.
fn move_columns(columns: &mut [u16], placement: Placement)
    requires placement_fits { PlacementFits placement }
    requires by_index { (i : ℕ) → i < length columns.old → get_or columns.old i 0 < 32768 }
    ensures { columns.new ≡ map (moved_by placement) columns.old }
{
    for column in columns {
        *column = moved(placement, *column);
    }
}

// The column of an outgoing cable, by its port.
fn port_column(placement: Placement, port: Port) -> u16
    requires { PlacementFits placement }
    ensures { result ≡ column_by placement port }
{
    match port {
        Port::Left => placement.column,
        Port::Above => placement.column + placement.left,
        Port::Right => placement.column + placement.left + 1,
        Port::Below => placement.column + placement.left + 2,
    }
}

// The cables move, and the outgoing ones get the columns of their ports, from left to right.
fn place_cables(columns: &mut [u16], outs: &Incident, placement: Placement)
    requires placement_fits { PlacementFits placement }
    requires by_index { (i : ℕ) → i < length columns.old → get_or columns.old i 0 < 32768 }
    requires opens { Opens (length columns.old) outs.now placement }
    ensures { columns.new ≡ set_each (lines_in outs.now) (port_columns placement) (map (moved_by placement) columns.old) }
{
    move_columns(columns, placement);
    for i in 0..outs.count {
        columns[outs.places[i].line] = port_column(placement, placement.ports[i]);
    }
}

// The parts of the ranks below k move, and rank k stands.
fn place_part(parts: &mut [u16], k: Rank, placement: Placement)
    requires placement_fits { PlacementFits placement }
    requires k_in_bounds { k.0 < length parts.old }
    requires by_index { (i : ℕ) → i < k.0 → get_or parts.old i 0 < 32768 }
    ensures { take (k.0 + 1) parts.new ≡ map (moved_by placement) (take k.0 parts.old) ++ (placement.column + placement.left) ∷ [] }
{
    let rank = k.0 as usize;
    move_columns(&mut parts[..rank], placement);
    parts[rank] = placement.column + placement.left;
}

// The columns once rank k stands: its drawing is chosen, and applied.
fn add_rank(columns: &mut Columns, graph: &Graph, k: Rank)
    requires k_lt_parts { k.0 < graph.now.parts }
    requires columns_of { ColumnsOf graph.now k.0 columns.old }
    ensures { ColumnsOf graph.now (k.0 + 1) columns.new }
{
    let outs = outgoing_cables(graph, k);
    let ins = incoming_cables(graph, &columns.cables[..graph.cables], k);
    let placement = placement_of(&ins, outs.count);
    place_cables(&mut columns.cables[..graph.cables], &outs, placement);
    place_part(&mut columns.parts, k, placement);
    columns.count += placement.left + placement.right;
}

// The columns once every rank stands. At the start there is one: 's gets its own column'.
pub fn columns_of(graph: &Graph) -> Columns
    ensures { ColumnsOf graph.now graph.now.parts result }
{
    let mut columns = Columns {
        cables: [0; MOST_CABLES],
        parts: [0; MOST_PARTS],
        count: 1,
    };
    for k in 0..graph.parts as u16 {
        add_rank(&mut columns, graph, Rank::of(k));
    }
    columns
}
