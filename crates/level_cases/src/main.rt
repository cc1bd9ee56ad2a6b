// Finds the levels of every call of a stored file, for the gate: standard input holds for each call the count of its list's words and these
// words, and the count of its second row's words and these, each most significant byte first. Each call is made with room to spare, filled
// with a mark; one that finds levels also with the exact room and with one float less, a refused one also with no room. Printed are the
// answers, the bit patterns of the floats, and whether what lies behind them is as it was.
#![tactic(auto)]

ghost use Rattle.std.specs.Prelude.{◌<◌, length, IfSome};

use console::{MARK, input_words, say_count, take_row, try_rooms};
use levelling::find_levels;
use std::io;

// Room to spare for the levels of every station.
const ROW: usize = 2048;

// The bit pattern of a float, and 0 of a NaN, of which there are several.
fn pattern(x: f32) -> u32 {
    if x.is_nan() { 0 } else { x.to_bits() }
}

#[derive(Clone, Copy)]
struct Call<'a> {
    list: &'a [u32],
    sorts: &'a [u32],
}

impl<'a> Call<'a> {
    // The call at the front of the words, unless it is cut short.
    fn take(words: &mut &'a [u32]) -> Option<Self>
        ensures { IfSome result (λ _. length words.new.now < length words.old.now) }
    {
        Some(Call {
            list: take_row(words)?,
            sorts: take_row(words)?,
        })
    }

    // The call with a row of so many floats, whose patterns go to `row`, and its answer printed; how many floats it wrote, if it was not
    // refused.
    fn make(&self, rt: &(impl Print + AllocGlobal), row: &mut [u32]) -> io::Result<Option<usize>> {
        let mut levels = vec![in rt.alloc(); f32::from_bits(MARK); row.len()]?;
        let answer = find_levels(self.list, self.sorts, &mut levels);
        for (word, level) in row.iter_mut().zip(&levels) {
            *word = pattern(*level);
        }
        say_count(rt, "levels", answer)
    }
}

fn main(rt: HostRuntime) -> io::Result<()> {
    let input = input_words(&rt)?;
    let mut words = input.as_slice();
    while let Some(call) = Call::take(&mut words) {
        try_rooms(&rt, ROW, |row| call.make(&rt, row))?;
    }
    Ok(())
}
