// Holds every sheet of a stored file against its list, for the gate: standard input holds for each call the count of its list's words and
// these words, and the count of its sheet's words and these, each most significant byte first. Printed are the answers.
#![tactic(auto)]

ghost use Rattle.std.specs.Prelude.{◌<◌, length, IfSome};

use console::{input_words, take_row};
use std::io;
use validating::check_sheet;

// The list and the sheet at the front of the words, unless they are cut short.
fn take_call<'a>(words: &mut &'a [u32]) -> Option<(&'a [u32], &'a [u32])>
    ensures { IfSome result (λ _. length words.new.now < length words.old.now) }
{
    Some((take_row(words)?, take_row(words)?))
}

fn main(rt: HostRuntime) -> io::Result<()> {
    let input = input_words(&rt)?;
    let mut words = input.as_slice();
    while let Some((list, sheet)) = take_call(&mut words) {
        match check_sheet(list, sheet) {
            Ok(()) => println!(rt; "accepted")?,
            Err(refusal) => println!(rt; "{refusal}")?,
        }
    }
    Ok(())
}
