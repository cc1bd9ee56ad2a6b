// Points at every sheet of a stored file, for the gate: standard input holds for each call a cable line, the length of the row for the
// answers, and a list, a sheet and marks, each behind its count of words; words have their most significant byte first. Printed are the
// answers.
#![tactic(auto)]

ghost use Rattle.std.specs.Prelude.{◌<◌, length, IfSome};

use bounds::Bounds;
use console::{MARK, input_words, say_kept, say_words, take_row, take_words};
use locating::locate;
use selecting::{cable_bounds, cable_words, select_cable};
use std::io;

// The longest row for answers.
const ROW: usize = 256;

#[derive(Clone, Copy)]
struct Call<'a> {
    line: usize,
    room: usize,
    list: &'a [u32],
    sheet: &'a [u32],
    marks: &'a [u32],
}

impl<'a> Call<'a> {
    // The call at the front of the words, unless it is cut short.
    fn take(words: &mut &'a [u32]) -> Option<Self>
        ensures { IfSome result (λ _. length words.new.now < length words.old.now) }
    {
        let &[line, room] = take_words::<2>(words)?;
        Some(Call {
            line: line as usize,
            room: room as usize,
            list: take_row(words)?,
            sheet: take_row(words)?,
            marks: take_row(words)?,
        })
    }

    fn point(&self, rt: &impl Print) -> io::Result<()> {
        let mut row = [MARK; ROW];
        let Some(hits) = row.get_mut(..self.room) else {
            return Ok(());
        };
        if let Err(refusal) = locate(self.list, self.sheet, self.marks, hits) {
            println!(rt; "{refusal}")?;
            return say_kept(rt, &row);
        }
        let count = self.marks.len();
        let Some((hits, behind)) = row.split_at_checked(count) else {
            return Ok(());
        };
        println!(rt; "hits {count}")?;
        say_words(rt, hits)?;
        say_kept(rt, behind)
    }

    fn choose(&self, rt: &impl Print) -> io::Result<()> {
        if let Err(refusal) = select_cable(self.list, self.sheet, self.line) {
            println!(rt; "{refusal}")?;
        }
        let own = cable_words(self.list, self.sheet, self.line);
        let count = own.len();
        println!(rt; "words {count}")?;
        say_words(rt, own)
    }

    fn enclose(&self, rt: &impl Print) -> io::Result<()> {
        match cable_bounds(self.list, self.sheet, self.line) {
            Ok(
                Bounds {
                    left,
                    bottom,
                    right,
                    top,
                },
            ) => println!(rt; "bounds {left} {bottom} {right} {top}"),
            Err(refusal) => println!(rt; "{refusal}"),
        }
    }
}

fn main(rt: HostRuntime) -> io::Result<()> {
    let input = input_words(&rt)?;
    let mut words = input.as_slice();
    while let Some(call) = Call::take(&mut words) {
        call.point(&rt)?;
        call.choose(&rt)?;
        call.enclose(&rt)?;
    }
    Ok(())
}
