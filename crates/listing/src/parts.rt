// Checks 5 and 6: the part numbers of the ends and of the cables.
ghost use Rattle.std.specs.Prelude.{◌≡◌, ◌<◌, length, eqb};
ghost use Rattle.words.specs.Words.{first_of, second_of};
ghost use Rattle.station.specs.Checks.{outside, check5, check6};

use words::Word;

// A part number of the word is n or more.
#[tactic(auto, unfolding(station::specs::Checks::outside))]
fn is_outside(n: u16, w: u32) -> bool
    ensures { result ≡ outside n w }
{
    n <= Word(w).first() || n <= Word(w).second()
}

// 5: 'a part number n or more', 'first such word'.
pub fn outside_word(list: &[u32]) -> Option<usize>
    requires { 0 < length list.now }
    ensures { result ≡ check5 list.now }
{
    let n = Word(list[0]).parts();
    (1..list.len()).find(|&i| is_outside(n, list[i]))
}

// The word names one part twice.
fn is_loop(w: u32) -> bool
    ensures { result ≡ eqb (first_of w) (second_of w) }
{
    Word(w).first() == Word(w).second()
}

// 6: 's equals t, or a cable joins a part to itself', 'first such word'.
pub fn loop_word(list: &[u32]) -> Option<usize>
    requires { 0 < length list.now }
    ensures { result ≡ check6 list.now }
{
    (1..list.len()).find(|&i| is_loop(list[i]))
}
