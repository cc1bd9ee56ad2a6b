// Puts every list of a stored file into canonical form, for the gate: standard input holds for each call the count of its list's words and
// the list's words, each most significant byte first. Each list is taken with room to spare, filled with a mark; a canonical list also with
// the exact room and with one word less, a refused list also with no room. Printed are the answers, the canonical list's words, and whether
// what lies behind them is as it was.
#![tactic(auto)]

use canonicalizing::canonicalize;
use console::{input_words, say_count, take_row, try_rooms};
use std::io;
use words::limits::MOST_CABLES;

// Room to spare for every canonical list.
const ROW: usize = 2 * (MOST_CABLES + 2);

fn main(rt: HostRuntime) -> io::Result<()> {
    let input = input_words(&rt)?;
    let mut words = input.as_slice();
    while let Some(list) = take_row(&mut words) {
        try_rooms(&rt, ROW, |row| {
            say_count(&rt, "list", canonicalize(list, row))
        })?;
    }
    Ok(())
}
