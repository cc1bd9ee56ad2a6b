// Text stored into a buffer from a place on. Each function answers the place behind what it stored: the promise `Stored` is about a buffer,
// a place and the place behind, so these stand beside the buffer.
ghost use Rattle.std.specs.Prelude.{◌≡◌, ◌+◌, ◌*◌, ◌≤◌, ◌<◌, length};
ghost use Rattle.lists.specs.Stores.{Stored};
ghost use Rattle.text.specs.Lines.{hex_digit, hex_half, hex_line, hex_lines, digits, decimal, refused_line};

// A text as it stands.
pub fn put_text(out: &mut [u8], at: usize, text: &[u8]) -> usize
    requires { at + length text.now ≤ length out.old }
    ensures { Stored out.old at text.now out.new result }
{
    let end = at + text.len();
    out[at..end].copy_from_slice(text);
    end
}

fn hex_digit(n: u32) -> u8
    requires { n < 16 }
    ensures { result ≡ hex_digit n }
{
    if n < 10 {
        return b'0' + n as u8;
    }
    b'a' + (n - 10) as u8
}

// Half a word in four hexadecimal digits.
fn put_hex_half(out: &mut [u8], at: usize, half: u32) -> usize
    requires { (at + 4 ≤ length out.old) × (half < 65536) }
    ensures { Stored out.old at (hex_half half) out.new result }
{
    let digits = [
        hex_digit(half / 4096),
        hex_digit(half / 256 % 16),
        hex_digit(half / 16 % 16),
        hex_digit(half % 16),
    ];
    put_text(out, at, &digits)
}

// A word in eight hexadecimal digits, and the line's end.
fn put_hex_line(out: &mut [u8], at: usize, w: u32) -> usize
    requires { at + 9 ≤ length out.old }
    ensures { Stored out.old at (hex_line w) out.new result }
{
    let low = put_hex_half(out, at, w / 65536);
    let end = put_hex_half(out, low, w % 65536);
    out[end] = b'\n';
    end + 1
}

// A sheet, a word a line.
pub fn put_hex_lines(out: &mut [u8], at: usize, words: &[u32]) -> usize
    requires { at + 9 * length words.now ≤ length out.old }
    ensures { Stored out.old at (hex_lines words.now) out.new result }
{
    let mut next = at;
    for &word in words {
        next = put_hex_line(out, next, word);
    }
    next
}

// The decimal digits of a number of at most k digits, one by one as `digits` defines them.
fn put_digits(out: &mut [u8], at: usize, x: usize, k: usize) -> usize
    requires { at + k ≤ length out.old }
    ensures { Stored out.old at (digits k x) out.new result }
{
    if k == 0 {
        return at;
    }
    if x < 10 {
        out[at] = b'0' + x as u8;
        return at + 1;
    }
    let last = put_digits(out, at, x / 10, k - 1);
    out[last] = b'0' + (x % 10) as u8;
    last + 1
}

// A number in decimal, into a row of bytes: `decimal` says each of them, which `write!` would leave open.
pub fn put_number(out: &mut [u8], at: usize, x: usize) -> usize
    requires { at + 20 ≤ length out.old }
    ensures { Stored out.old at (decimal x) out.new result }
{
    put_digits(out, at, x, 20)
}

// A refusal's number and place on one line.
pub fn put_refused(out: &mut [u8], at: usize, check: usize, place: usize) -> usize
    requires { at + 50 ≤ length out.old }
    ensures { Stored out.old at (refused_line check place) out.new result }
{
    let number = put_text(out, at, b"refused ");
    let space = put_digits(out, number, check, 20);
    out[space] = b' ';
    let end = put_digits(out, space + 1, place, 20);
    out[end] = b'\n';
    end + 1
}
