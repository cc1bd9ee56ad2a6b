// The sheet program: a list from standard input, its sheet or refusal to standard output. One byte more than a file may have is
// read, so that a file that is too large is seen.
#![tactic(auto)]

use console::read_full;
use printing::{MOST_BYTES, ROOM, print_read};
use std::io;

fn main(rt: HostRuntime) -> io::Result<()> {
    let mut bytes = [0u8; MOST_BYTES + 1];
    let mut out = [0u8; 9 * ROOM];
    let count = read_full(&mut rt.reader(), &mut bytes)?;
    let end = print_read(&bytes, count, &mut out);
    rt.write_all(&out[..end])
}
