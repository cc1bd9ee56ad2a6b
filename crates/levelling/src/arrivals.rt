// The levels of the routes that arrive at a part by its cables from below.
ghost use Rattle.std.specs.Prelude.{◌≡◌, ◌<◌};
ghost use Rattle.words.specs.Limits.{most_parts};
ghost use Rattle.levelling.specs.Pass as pass;
ghost use Rattle.levelling.specs.Pass.{Readable};

use crate::pairs;
use levels::Levels;
use reachability::adjacency::Adjacency;
use signals::decibels::{together, zero};
use words::Part;
use words::limits::MOST_PARTS;

// The levels before part p: the flagged neighbours are those below it. At the source, where no route arrives, they are 'from 0'.
pub fn incoming(adjacency: &Adjacency, flags: &[bool; MOST_PARTS], row: &[f32], p: Part) -> Levels
    requires readable { Readable flags.now row.now }
    requires part { p.0 < most_parts }
    ensures { result ≡ pass.incoming adjacency.now.table flags.now row.now p.0 }
{
    adjacency
        .neighbours(p)
        .iter()
        .filter(|&&q| flags[q.0 as usize])
        .map(|&q| pairs::get(row, q.0 as usize))
        .reduce(together)
        .unwrap_or(zero())
}
