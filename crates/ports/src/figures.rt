// Where a part stands, by the counts of its cables: one case for each drawing of figures 2 and 3 of source 000. A case says the column that
// the part takes, how many new ones come on its left and on its right, and the ports by which its outgoing cables leave it, from left to
// right. Figure 3 draws parts with four cables; one with fewer has fewer going out.
ghost use Rattle.std.specs.Prelude.{[], ◌≤◌, map};
ghost use Rattle.layout.specs.Ports.{source_ports, in_ports, out_ports, Depicted};
ghost use Rattle.incidence.specs.Incidents.{first_keys, keys_in};
ghost use Rattle.ports.specs.Placements.{PlacementIs, Stands, port_in};

use incidence::incident::Incident;

// The port by which an outgoing cable leaves its part.
#[derive(Clone, Copy, Debug, PartialEq, Eq)]
pub enum Port {
    Left,
    Above,
    Right,
    Below,
}

// Where a part stands.
#[derive(Clone, Copy, Debug, PartialEq, Eq)]
pub struct Placement {
    pub column: u16,
    pub left: u16,
    pub right: u16,
    pub ports: &'static [Port],
}

impl Placement {
    fn new(column: u16, left: u16, right: u16, ports: &'static [Port]) -> Placement
        ensures { PlacementIs column left right (map port_in ports.now) result }
    {
        Placement {
            column,
            left,
            right,
            ports,
        }
    }
}

// Figure 2, by the count of the source's cables: 's gets its own column', with two 'a new one to its right', with three 'one to its left',
// with four 'one right of all these', for the bottom connection, which leaves downward.
fn source(outs: usize) -> Placement
    requires { Depicted 0 outs }
    ensures { Stands [] [] (source_ports outs) result }
{
    match outs {
        1 => Placement::new(0, 0, 0, &[Port::Above]),
        2 => Placement::new(0, 0, 1, &[Port::Above, Port::Right]),
        3 => Placement::new(0, 1, 1, &[Port::Left, Port::Above, Port::Right]),
        _ => Placement::new(
            0,
            1,
            2,
            &[Port::Left, Port::Above, Port::Right, Port::Below],
        ),
    }
}

// Figure 3, the drawing with one coming in: the part takes its column. A second one that goes out leaves to the right, a third to the left.
fn one_in(ins: &Incident, outs: usize) -> Placement
    requires { outs ≤ 3 }
    ensures { Stands (first_keys 1 ins.now) (in_ports 1) (out_ports 1 outs) result }
{
    let column = ins.places[0].key;
    match outs {
        0 => Placement::new(column, 0, 0, &[]),
        1 => Placement::new(column, 0, 0, &[Port::Above]),
        2 => Placement::new(column, 0, 1, &[Port::Above, Port::Right]),
        _ => Placement::new(column, 1, 1, &[Port::Left, Port::Above, Port::Right]),
    }
}

// Figure 3, the drawing with two coming in: the part takes the left column, and the other cable comes from the right. A second one that
// goes out leaves to the left.
fn two_in(ins: &Incident, outs: usize) -> Placement
    requires { outs ≤ 2 }
    ensures { Stands (first_keys 2 ins.now) (in_ports 2) (out_ports 2 outs) result }
{
    let left = ins.places[0].key;
    match outs {
        0 => Placement::new(left, 0, 0, &[]),
        1 => Placement::new(left, 0, 0, &[Port::Above]),
        _ => Placement::new(left, 1, 0, &[Port::Left, Port::Above]),
    }
}

// Figure 3, the drawing with three coming in: the part takes the middle column, and the other cables come from the left and from the right.
fn three_in(ins: &Incident, outs: usize) -> Placement
    requires { outs ≤ 1 }
    ensures { Stands (first_keys 3 ins.now) (in_ports 3) (out_ports 3 outs) result }
{
    let middle = ins.places[1].key;
    match outs {
        0 => Placement::new(middle, 0, 0, &[]),
        _ => Placement::new(middle, 0, 0, &[Port::Above]),
    }
}

// Figure 3, the drawing with four coming in: t takes the middle column of the first three, of which the others come from the left and from
// the right. The last is the top connection, which comes over the top, and none goes out.
fn four_in(ins: &Incident) -> Placement
    ensures { Stands (first_keys 4 ins.now) (in_ports 4) (out_ports 4 0) result }
{
    Placement::new(ins.places[1].key, 0, 0, &[])
}

// Figure 3, by the count of the cables that come in; where none does, the part is the source.
pub fn placement_of(ins: &Incident, outs: usize) -> Placement
    requires { Depicted ins.now.count outs }
    ensures { Stands (keys_in ins.now) (in_ports ins.now.count) (out_ports ins.now.count outs) result }
{
    match ins.count {
        0 => source(outs),
        1 => one_in(ins, outs),
        2 => two_in(ins, outs),
        3 => three_in(ins, outs),
        _ => four_in(ins),
    }
}
