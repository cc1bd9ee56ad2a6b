// Standard input and output of the programs that the gate runs on stored calls: words most significant byte first, and rows of them, each
// behind its count.
#![tactic(auto)]

ghost use Rattle.std.specs.Prelude.{◌≡◌, ◌/◌, ◌≤◌, ◌<◌, ◌∷◌, ◌++◌, ◌↔◌, length, slice_index, vec_len, IfErr, IfOk, IsSome, MatchOption, MatchResult};
ghost use Rattle.console.specs.Input.{most_read, part_words};

use std::fmt::Display;
use std::io;
use std::io::Read;
use text::bytes::read_words;
use text::lines::put_hex_lines;

/// The most words that are read.
pub const MOST_READ: usize = 131072;

// The words of a part, read or printed at once.
const PART: usize = 1024;

// The parts of the longest input.
const PARTS: usize = MOST_READ / PART;

/// What a row holds before a call, so that it can be said what the call wrote.
pub const MARK: u32 = 0xa5a5_a5a5;

/// Reads until the row is full or the input ends; how many bytes stand at the row's front. A read gives as many bytes as it likes, so that
/// no range says how often it is called.
pub fn read_full(input: &mut impl Read, row: &mut [u8]) -> io::Result<usize>
    ensures ok { IfOk result (λ n. n ≤ length row.new) }
    ensures err { IfErr result (λ _. length row.new ≡ length row.old) }
{
    let mut done = 0;
    while done < row.len() {
        let n = input.read(&mut row[done..])?;
        if n == 0 {
            break;
        }
        done += n;
    }
    Ok(done)
}

// The words of the next bytes of the input, as many as a row of bytes holds, stored from the front; how many there are.
fn read_part(input: &mut impl Read, row: &mut [u8], words: &mut [u32]) -> io::Result<usize>
    requires { length row.old / 4 ≤ length words.old }
    ensures ok { IfOk result (λ n. n ≤ length row.new / 4) }
    ensures err { IfErr result (λ _. length words.new ≡ length words.old) }
{
    let n = read_full(input, row)?;
    Ok(read_words(&row[..n], words))
}

// The words of an input, stored from the front, part by part; how many there are.
fn read_parts(input: &mut impl Read, words: &mut [u32]) -> io::Result<usize>
    requires { most_read ≤ length words.old }
    ensures ok { IfOk result (λ n. n ≤ length words.new) }
    ensures err { IfErr result (λ _. length words.new ≡ length words.old) }
{
    let mut row = [0u8; 4 * PART];
    for i in 0..PARTS {
        let start = PART * i;
        let n = read_part(input, &mut row, &mut words[start..])?;
        if n < PART {
            return Ok(start + n);
        }
    }
    Ok(MOST_READ)
}

/// The words of standard input, stored from the front; how many there are.
pub fn read_input(rt: &impl Input, words: &mut [u32]) -> io::Result<usize>
    requires { most_read ≤ length words.old }
    ensures ok { IfOk result (λ n. n ≤ length words.new) }
    ensures err { IfErr result (λ _. length words.new ≡ length words.old) }
{
    let mut input = rt.reader();
    read_parts(&mut input, words)
}

/// The words of standard input, in a row of their own.
pub fn input_words(rt: &(impl Input + AllocGlobal)) -> io::Result<Vec<u32>>
    ensures { IfOk result (λ words. vec_len words ≤ most_read) }
{
    let mut words = vec![in rt.alloc(); 0u32; MOST_READ]?;
    let count = read_input(rt, &mut words)?;
    words.truncate(count);
    Ok(words)
}

/// Takes the first `N` words off the front; of fewer, none.
pub fn take_words<'a, const N: usize>(words: &mut &'a [u32]) -> Option<&'a [u32; N]>
    ensures some { MatchOption result (words.new.now ≡ words.old.now) (λ head. words.old.now ≡ head.now ++ words.new.now) }
    ensures variant { IsSome result ↔ (N ≤ length words.old.now) }
{
    let (head, rest) = words.split_first_chunk()?;
    *words = rest;
    Some(head)
}

/// Takes a row off the front, which stands there behind its count. Without a whole row the words stay.
pub fn take_row<'a>(words: &mut &'a [u32]) -> Option<&'a [u32]>
    ensures some { MatchOption result (words.new.now ≡ words.old.now) (λ row. words.old.now ≡ length row.now ∷ row.now ++ words.new.now) }
    ensures variant { IsSome result
        ↔ ((0 < length words.old.now) × (slice_index words.old.now 0 < length words.old.now)) }
{
    let mut behind = *words;
    let count = *behind.split_off_first()?;
    let row = behind.split_off(..count as usize)?;
    *words = behind;
    Some(row)
}

// The words of a part, a word a line, by one write.
#[tactic(auto, using(text::proofs::LineLaws::length_hex_lines, lists::proofs::Stores::stored_kept))]
fn say_part(rt: &impl Print, words: &[u32]) -> io::Result<()>
    requires { length words.now ≤ part_words }
{
    let mut out = [0u8; 9 * PART];
    let end = put_hex_lines(&mut out, 0, words);
    let lines = &out[..end];
    rt.write_all(lines)
}

/// A word a line.
pub fn say_words(rt: &impl Print, words: &[u32]) -> io::Result<()> {
    for part in words.chunks(PART) {
        say_part(rt, part)?;
    }
    Ok(())
}

/// Whether a row is as it was before a call.
pub fn say_kept(rt: &impl Print, row: &[u32]) -> io::Result<()> {
    let kept = row.iter().all(|&word| word == MARK);
    println!(rt; "{}", if kept { "kept" } else { "changed" })
}

/// Whether two calls left the same.
pub fn say_same(rt: &impl Print, a: &[u32], b: &[u32]) -> io::Result<()> {
    println!(rt; "{}", if a == b { "same" } else { "other words" })
}

/// Prints a count behind its name, or why there is none; the count.
pub fn say_count<E: Display + Drop>(
    rt: &impl Print,
    name: &str,
    answer: Result<usize, E>,
) -> io::Result<Option<usize>>
    ensures { IfOk result (λ count. MatchResult answer (λ n. count ≡ Some n) (λ _. count ≡ None)) }
{
    match answer {
        Ok(count) => {
            println!(rt; "{name} {count}")?;
            Ok(Some(count))
        }
        Err(refusal) => {
            println!(rt; "{refusal}")?;
            Ok(None)
        }
    }
}

// What a call with room for so many words leaves of a marked row.
fn row_after<F>(
    rt: &(impl Print + AllocGlobal),
    spare: usize,
    room: usize,
    call: F,
) -> io::Result<Vec<u32>>
where
    F: Fn(&mut [u32]) -> io::Result<Option<usize>>,
    requires room_in_bounds { room ≤ spare }
    requires callable { F.IsAlwaysCallable call }
    ensures { IfOk result (λ row. vec_len row ≡ spare) }
{
    let mut row = vec![in rt.alloc(); MARK; spare]?;
    call(&mut row[..room])?;
    Ok(row)
}

/// Makes a call with `spare` words of room, more than it can need. One that writes words is made once more with the exact room and once with
/// one word less, a refused one with none. `call` prints its answer and returns how many words it wrote, if it was not refused.
pub fn try_rooms<F>(rt: &(impl Print + AllocGlobal), spare: usize, call: F) -> io::Result<()>
where
    F: Fn(&mut [u32]) -> io::Result<Option<usize>> + Drop,
    requires { F.IsAlwaysCallable call }
{
    let mut row = vec![in rt.alloc(); MARK; spare]?;
    let Some(count) = call(&mut row)? else {
        say_kept(rt, &row)?;
        return say_kept(rt, &row_after(rt, spare, 0, &call)?);
    };
    let Some((written, behind)) = row.split_at_checked(count) else {
        return Ok(());
    };
    say_words(rt, written)?;
    say_kept(rt, behind)?;
    say_same(rt, &row, &row_after(rt, spare, count, &call)?)?;
    if 0 < count {
        say_kept(rt, &row_after(rt, spare, count - 1, &call)?)?;
    }
    Ok(())
}
