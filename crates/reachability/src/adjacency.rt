// The neighbours of each part, by the cables of a list.
ghost use Rattle.std.specs.Prelude.{◌≡◌, ◌<◌};
ghost use Rattle.words.specs.Limits.{most_parts};
ghost use Rattle.station.specs.Station.{station_of};
ghost use Rattle.station.specs.Code.{Wired};
ghost use Rattle.reachability.specs.Tables.{numbers, neighbours_in, has_neighbour, TableFits, Adjacent, Appendable, Appended};

use listing::fields;
use words::Part;
use words::limits::{MOST_DEGREE, MOST_PARTS};

// A part's neighbours: of its places, as many as it counts.
#[derive(Clone, Copy)]
pub struct Neighbours {
    pub parts: [Part; MOST_DEGREE],
    pub count: u8,
}

// The neighbours of every part, by line. `of` gives those of a list; any table that fits is one.
#[derive(Clone, Copy)]
pub struct Adjacency {
    pub table: [Neighbours; MOST_PARTS],
    pub ghost formed: { TableFits table },
}

// q put behind the neighbours of p.
fn join(table: &mut [Neighbours; MOST_PARTS], p: Part, q: Part)
    requires { Appendable table.old p.0 q.0 }
    ensures { Appended table.old table.new p.0 q.0 }
{
    let neighbours = &mut table[p.0 as usize];
    neighbours.parts[neighbours.count as usize] = q;
    neighbours.count += 1;
}

impl Adjacency {
    // That of a list's cables.
    #[tactic(auto, using(station::proofs::Passed::wired_words))]
    pub fn of(list: &[u32]) -> Adjacency
        requires { Wired (station_of list.now) }
        ensures { Adjacent list.now result.table }
    {
        let none = Neighbours {
            parts: [Part(0); MOST_DEGREE],
            count: 0,
        };
        let mut table = [none; MOST_PARTS];
        for line in 0..fields::cable_count(list) {
            let a = fields::one_part(list, line);
            let b = fields::other_part(list, line);
            join(&mut table, a, b);
            join(&mut table, b, a);
        }
        Adjacency { table }
    }

    // Part p's neighbours.
    pub fn neighbours(&self, p: Part) -> &[Part]
        requires { p.0 < most_parts }
        ensures { numbers result.now ≡ neighbours_in self.now.table p.0 }
    {
        let neighbours = &self.table[p.0 as usize];
        &neighbours.parts[..neighbours.count as usize]
    }

    // Part w has a neighbour with this flag.
    pub fn has_neighbour(&self, flags: &[bool; MOST_PARTS], w: Part, flag: bool) -> bool
        requires { w.0 < most_parts }
        ensures { result ≡ has_neighbour self.now.table flags.now w.0 flag }
    {
        for &q in self.neighbours(w) {
            if flags[q.0 as usize] == flag {
                return true;
            }
        }
        false
    }
}
