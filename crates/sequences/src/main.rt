// Makes stored sequences of operations on a list in a row, for the gate: standard input holds for each sequence the count of its row's
// words, the count of its operations, the row's words, and for each operation four words: 0 for a proposal and 1 for a commit, the cable's
// two parts, and the version; each word most significant byte first. Printed are each operation's answer and, at the end of a sequence, the
// row's words.
#![tactic(auto)]

ghost use Rattle.std.specs.Prelude.{◌<◌, length, IfSome};

use console::{input_words, say_words, take_words};
use editing::{commit, propose};
use editor::Proposal;
use std::io;

// The longest row.
const ROW: usize = 2048;

#[derive(Clone, Copy)]
enum Operation {
    Propose { one: u32, other: u32 },
    Commit(Proposal),
}

impl From<[u32; 4]> for Operation {
    fn from(words: [u32; 4]) -> Self {
        let [kind, one, other, version] = words;
        if kind == 0 {
            Operation::Propose { one, other }
        } else {
            Operation::Commit(Proposal {
                one,
                other,
                version,
            })
        }
    }
}

// An operation on a row, and its answer printed.
fn operate(rt: &impl Print, row: &mut [u32], operation: Operation) -> io::Result<()> {
    match operation {
        Operation::Propose { one, other } => match propose(row, one, other) {
            Ok(
                Proposal {
                    one,
                    other,
                    version,
                },
            ) => println!(rt; "proposal {one} {other} {version}"),
            Err(refusal) => println!(rt; "{refusal}"),
        },
        Operation::Commit(proposal) => match commit(row, proposal) {
            Ok(()) => println!(rt; "committed"),
            Err(refusal) => println!(rt; "{refusal}"),
        },
    }
}

#[derive(Clone, Copy)]
struct Sequence<'a> {
    row: &'a [u32],
    operations: &'a [u32],
}

impl<'a> Sequence<'a> {
    // The sequence at the front of the words, unless it is cut short.
    fn take(words: &mut &'a [u32]) -> Option<Self>
        ensures { IfSome result (λ _. length words.new.now < length words.old.now) }
    {
        let &[row, operations] = take_words::<2>(words)?;
        Some(Sequence {
            row: words.split_off(..row as usize)?,
            operations: words.split_off(..4 * operations as usize)?,
        })
    }

    // The operations one after the other on a copy of the row, and the row that they leave.
    fn run(&self, rt: &impl Print) -> io::Result<()> {
        let mut longest = [0u32; ROW];
        let Some(row) = longest.get_mut(..self.row.len()) else {
            return Ok(());
        };
        row.copy_from_slice(self.row);
        let (operations, _) = self.operations.as_chunks::<4>();
        for &operation in operations {
            operate(rt, row, Operation::from(operation))?;
        }
        say_words(rt, row)
    }
}

fn main(rt: HostRuntime) -> io::Result<()> {
    let input = input_words(&rt)?;
    let mut words = input.as_slice();
    while let Some(sequence) = Sequence::take(&mut words) {
        sequence.run(&rt)?;
    }
    Ok(())
}
