// Checks 1 to 4: the count of words, their kinds, and the head's n and m.
ghost use Rattle.std.specs.Prelude.{◌≡◌, ◌<◌, length};
ghost use Rattle.words.specs.Words.{kind_number};
ghost use Rattle.station.specs.Checks.{check1, kind_at, misplaced, check2, check3, check4};

use words::limits::{LEAST_PARTS, MOST_PARTS};
use words::{Kind, Word};

// 1: 'fewer than two words'.
#[tactic(auto, unfolding(station::specs::Checks::check1, checks::specs::Checks::at_when))]
pub fn too_short(list: &[u32]) -> Option<usize>
    ensures { result ≡ check1 list.now }
{
    (list.len() < 2).then_some(list.len())
}

// The kind that is right for a position.
#[tactic(auto, unfolding(station::specs::Checks::kind_at))]
fn kind_at(i: usize) -> Kind
    ensures { kind_number result ≡ kind_at i }
{
    match i {
        0 => Kind::ListHead,
        1 => Kind::Ends,
        _ => Kind::Cable,
    }
}

// 'a word's kind is wrong for its position, or any of its bits 27 to 24 is set in kind 2 or 3'.
#[tactic(auto, unfolding(station::specs::Checks::misplaced, station::specs::Checks::kind_at))]
fn is_misplaced(i: usize, w: u32) -> bool
    ensures { result ≡ misplaced i w }
{
    let kind = kind_at(i);
    // No branch between the tests of a word, so that for a cable they are one.
    !Word(w).is(kind) | ((kind != Kind::ListHead) & (Word(w).spare() != 0))
}

// 2: the 'first such word'.
pub fn misplaced_word(list: &[u32]) -> Option<usize>
    ensures { result ≡ check2 list.now }
{
    (0..list.len()).find(|&i| is_misplaced(i, list[i]))
}

// 3: 'words other than m + 2'.
#[tactic(auto, unfolding(station::specs::Checks::check3, checks::specs::Checks::at_when))]
pub fn wrong_length(list: &[u32]) -> Option<usize>
    requires { 0 < length list.now }
    ensures { result ≡ check3 list.now }
{
    let due = Word(list[0]).cables() as usize + 2;
    (list.len() != due).then_some(due)
}

// 4: 'n below 3 or above' 512 (2026-11).
#[tactic(auto, unfolding(station::specs::Checks::check4, checks::specs::Checks::at_when))]
pub fn wrong_parts(list: &[u32]) -> Option<usize>
    requires { 0 < length list.now }
    ensures { result ≡ check4 list.now }
{
    let n = Word(list[0]).parts() as usize;
    (n < LEAST_PARTS || MOST_PARTS < n).then_some(n)
}
