// Which parts reach which: the neighbours of each part, walks among the parts, and checks 9 and 10 in code.
#![tactic(auto)]

ghost use Rattle.std.specs.Prelude.{◌≡◌, None};
ghost use Rattle.station.specs.Station.{station_of};
ghost use Rattle.order.specs.Reach.{check9, check10};

use walk::{Stack, Walker};
use words::Part;
use words::limits::MOST_PARTS;

pub mod adjacency;
pub mod walk;

impl Walker<'_> {
    // 9: 'a part that part 0 doesn't reach', 'lowest such part'.
    pub fn unreached_part(&self, stack: &mut Stack) -> Option<usize>
        ensures { result ≡ check9 (station_of self.now.list.now) }
    {
        let left = self.walk_from([true; MOST_PARTS], Part(0), stack);
        walk::lowest(&left, self.parts())
    }

    // 10: 'a part whose removal leaves some other part that reaches neither s nor t', 'lowest such part'. Where part 0 reaches all, a part
    // that separates another from both ends separates a neighbour of its own.
    pub fn separating_part(&self, stack: &mut Stack) -> Option<usize>
        requires { check9 (station_of self.now.list.now) ≡ None }
        ensures { result ≡ check10 (station_of self.now.list.now) }
    {
        for v in 0..self.parts() {
            let part = Part(v as u16);
            let left = self.separated_by(part, stack);
            if self.adjacency.has_neighbour(&left, part, true) {
                return Some(v);
            }
        }
        None
    }
}
