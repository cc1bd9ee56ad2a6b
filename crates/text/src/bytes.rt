// Words read from bytes, most significant byte first.
ghost use Rattle.std.specs.Prelude.{◌≡◌, ◌++◌, ◌/◌, ◌≤◌, length, drop};
ghost use Rattle.text.specs.Bytes.{words_in};

// All whole words of a file, stored from the front; how many there are.
pub fn read_words(bytes: &[u8], words: &mut [u32]) -> usize
    requires { length bytes.now / 4 ≤ length words.old }
    ensures count { result ≡ length bytes.now / 4 }
    ensures stored { words.new
        ≡ words_in bytes.now ++ drop (length bytes.now / 4) words.old }
{
    let (chunks, _) = bytes.as_chunks::<4>();
    for (i, &chunk) in chunks.iter().enumerate() {
        words[i] = u32::from_be_bytes(chunk);
    }
    chunks.len()
}
