// Makes every call of a stored file, for the gate: standard input holds for each call the count of its list's words, whether a discount is
// given, the discount, the column pitch, the row pitch, the margin, and the list's words, each most significant byte first. Each list is
// drawn with room to spare, filled with a mark; a sheet also with the exact room and with one word less, a refused list also with no room.
// Printed are the answers, the sheet's words, and whether what lies behind them is as it was.
#![tactic(auto)]

ghost use Rattle.std.specs.Prelude.{◌<◌, length, IfSome};

use console::{input_words, take_words, try_rooms};
use drafting::draw;
use drawing::spacing::Spacing;
use hookup::{Options, Sheet};
use std::io;
use words::limits::MOST_QUOTED_WORDS;

// Room to spare for every sheet.
const ROW: usize = 2 * MOST_QUOTED_WORDS;

#[derive(Clone, Copy)]
struct Call<'a> {
    options: Options,
    list: &'a [u32],
}

impl<'a> Call<'a> {
    // The call at the front of the words, unless it is cut short.
    fn take(words: &mut &'a [u32]) -> Option<Self>
        ensures { IfSome result (λ _. length words.new.now < length words.old.now) }
    {
        let &[count, given, discount, columns, rows, margin] = take_words::<6>(words)?;
        let options = if given == 0 {
            Options::plain()
        } else {
            Options::quoted(discount)
        };
        Some(Call {
            options: options.spaced(Spacing::of(columns, rows, margin)),
            list: words.split_off(..count as usize)?,
        })
    }

    // The call on a row, and its answer printed; how many words it wrote, if it was not refused.
    fn make(&self, rt: &impl Print, row: &mut [u32]) -> io::Result<Option<usize>> {
        match draw(self.list, row, self.options) {
            Ok(Sheet { words, crossings }) => {
                println!(rt; "sheet {words} {crossings}")?;
                Ok(Some(words))
            }
            Err(refusal) => {
                println!(rt; "{refusal}")?;
                Ok(None)
            }
        }
    }
}

fn main(rt: HostRuntime) -> io::Result<()> {
    let input = input_words(&rt)?;
    let mut words = input.as_slice();
    while let Some(call) = Call::take(&mut words) {
        try_rooms(&rt, ROW, |row| call.make(&rt, row))?;
    }
    Ok(())
}
