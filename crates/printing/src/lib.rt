// The sheet program from input bytes to output bytes.
#![tactic(auto)]

ghost use Rattle.std.specs.Prelude.{◌≡◌, ◌++◌, ◌+◌, ◌*◌, ◌/◌, ◌≤◌, length, take, drop};
ghost use Rattle.lists.specs.Stores.{Stored};
ghost use Rattle.hookup.specs.Options.{plain};
ghost use Rattle.hookup.specs.Outcome.{outcome};
ghost use Rattle.printing.specs.Printed.{most_bytes, room, loaded, loaded_row, message_of, error_text, answer_text, printed};

use drafting::draw;
use hookup::Options;
use std::error::Error;
use std::fmt;
use text::bytes::read_words;
use text::lines::{put_hex_lines, put_refused, put_text};
use words::limits::MOST_WORDS;

// A file has at most so many bytes.
pub const MOST_BYTES: usize = 65536;

// The row for a sheet, in words: as many as the longest has.
pub const ROOM: usize = MOST_WORDS;

/// Why a file holds no list.
#[derive(Clone, Copy, Debug, PartialEq, Eq)]
pub enum FileError {
    /// It has more than `MOST_BYTES` bytes.
    TooLarge,
    /// It ends inside a word.
    Broken,
}

impl FileError {
    pub fn message(self) -> &'static str
        ensures { result.now ≡ message_of self }
    {
        match self {
            FileError::TooLarge => "file too large",
            FileError::Broken => "broken file",
        }
    }
}

impl fmt::Display for FileError {
    fn fmt<W: fmt::Write>(&self, f: &mut fmt::Formatter<W>) -> fmt::Result {
        f.write_str(self.message())
    }
}

impl Error for FileError {}

// The words of a file, stored from the front, unless it is too large or broken; how many there are.
pub fn load(bytes: &[u8], words: &mut [u32]) -> Result<usize, FileError>
    requires { most_bytes / 4 ≤ length words.old }
    ensures answer { result ≡ loaded bytes.now }
    ensures stored { words.new ≡ loaded_row result bytes.now words.old }
{
    if bytes.len() > MOST_BYTES {
        return Err(FileError::TooLarge);
    }
    if bytes.len() % 4 != 0 {
        return Err(FileError::Broken);
    }
    Ok(read_words(bytes, words))
}

fn print_error(error: FileError, out: &mut [u8]) -> usize
    requires { 15 ≤ length out.old }
    ensures { Stored out.old 0 (error_text error) out.new result }
{
    let end = put_text(out, 0, error.message().as_bytes());
    put_text(out, end, b"\n")
}

// The text for a list: its sheet or its refusal. 2026-05: 'The sheet program gives none', no discount.
fn print_list(list: &[u32], out: &mut [u8]) -> usize
    requires { 9 * room ≤ length out.old }
    ensures { Stored out.old 0 (answer_text (outcome plain list.now room)) out.new result }
{
    let mut sheet = [0u32; ROOM];
    match draw(list, &mut sheet, Options::plain()) {
        Ok(drawn) => put_hex_lines(out, 0, &sheet[..drawn.words]),
        Err(refusal) => {
            let number = refusal.fault.number() as usize;
            put_refused(out, 0, number, refusal.place)
        }
    }
}

// The text for a file.
pub fn print_sheet(bytes: &[u8], out: &mut [u8]) -> usize
    requires { 9 * room ≤ length out.old }
    ensures count { result ≡ length (printed bytes.now room) }
    ensures text { out.new ≡ printed bytes.now room ++ drop result out.old }
{
    let mut words = [0u32; MOST_BYTES / 4];
    match load(bytes, &mut words) {
        Ok(count) => print_list(&words[..count], out),
        Err(error) => print_error(error, out),
    }
}

// The text for a file, of which count bytes were read into a buffer with room for one byte more than a file may have: a file that is too
// large shows. The count stands beside the buffer, since the promise is about both.
pub fn print_read(buffer: &[u8], count: usize, out: &mut [u8]) -> usize
    requires buffer_len { (length buffer.now ≡ most_bytes + 1) × (count ≤ length buffer.now) }
    requires room_in_bounds { 9 * room ≤ length out.old }
    ensures count { result ≡ length (printed (take count buffer.now) room) }
    ensures text { out.new ≡ printed (take count buffer.now) room ++ drop result out.old }
{
    print_sheet(&buffer[..count], out)
}
