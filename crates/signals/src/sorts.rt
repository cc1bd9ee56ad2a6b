// The second row: a word of kind 9 for each part.
ghost use Rattle.std.specs.Prelude.{◌≡◌, ◌≤◌, length};
ghost use Rattle.checks.specs.Checks.{first_refusal};
ghost use Rattle.levels.specs.Level.{sort_in};
ghost use Rattle.levels.specs.Sorts.{misformed, check17, check17_count, misnumbered, check18, sort_checks};
ghost use Rattle.signals.specs.Numbers.{NamesSort};

use crate::decibels::level_of;
use checks::{Fault, Refusal};
use levels::Sort;
use listing::fields::part_count;
use words::{Kind, Word};

// The sorts of parts by their numbers: 'a joint without a number, 1 a pad with its loss, 2 an amplifier with its gain'.
#[derive(Clone, Copy, Debug, PartialEq, Eq)]
pub enum PartSort {
    Joint,
    Pad,
    Amplifier,
}

// A number of no sort.
#[derive(Clone, Copy, Debug, PartialEq, Eq)]
pub struct UnknownSort(pub u32);

impl TryFrom<u32> for PartSort {
    type Error = UnknownSort;

    ghost try_from_gives = { NamesSort };

    fn try_from(number: u32) -> Result<Self, UnknownSort> {
        match number {
            0 => Ok(PartSort::Joint),
            1 => Ok(PartSort::Pad),
            2 => Ok(PartSort::Amplifier),
            _ => Err(UnknownSort(number)),
        }
    }
}

// 'bits 15 to 0 count 1/64 dB up to 6,400'.
pub const MOST_STEPS: u16 = 6400;

// The part that a word stands for, its number converted from 1/64 dB.
#[tactic(auto, unfolding(levels::specs::Level::sort_in))]
pub fn sort_of(word: u32) -> Sort
    ensures { result ≡ sort_in word }
{
    let level = level_of(Word(word).steps());
    match PartSort::try_from(Word(word).sort()) {
        Ok(PartSort::Pad) => Sort::Pad(level),
        Ok(PartSort::Amplifier) => Sort::Amplifier(level),
        _ => Sort::Joint,
    }
}

// A word 'of wrong kind, sort or spare bits'.
#[tactic(auto, unfolding(levels::specs::Sorts::misformed))]
fn is_misformed(word: u32) -> bool
    ensures { result ≡ misformed word }
{
    let sort = PartSort::try_from(Word(word).sort());
    !Word(word).is(Kind::PartSort) || sort.is_err() || Word(word).sort_spare() != 0
}

// 17: 'the first such word', wherever it stands.
fn misformed_word(row: &[u32]) -> Option<usize>
    ensures { result ≡ check17 row.now }
{
    row.iter().position(|&word| is_misformed(word))
}

// 'a number above 6,400 or not 0 at a joint'.
#[tactic(auto, unfolding(levels::specs::Sorts::misnumbered))]
fn is_misnumbered(word: u32) -> bool
    ensures { result ≡ misnumbered word }
{
    let steps = Word(word).steps();
    MOST_STEPS < steps || PartSort::try_from(Word(word).sort()) == Ok(PartSort::Joint) && steps != 0
}

// 18: 'the lowest such part'.
fn misnumbered_part(row: &[u32]) -> Option<usize>
    ensures { result ≡ check18 row.now }
{
    row.iter().position(|&word| is_misnumbered(word))
}

// 17, 'n where only the number of words is wrong'.
#[tactic(auto, unfolding(levels::specs::Sorts::check17_count, checks::specs::Checks::at_when))]
fn wrong_count(row: &[u32], n: usize) -> Option<usize>
    ensures { result ≡ check17_count n row.now }
{
    (row.len() != n).then_some(n)
}

// 17 and 18, of the row beside a list.
pub fn check_sorts(list: &[u32], row: &[u32]) -> Result<(), Refusal>
    requires { 2 ≤ length list.now }
    ensures { result ≡ first_refusal (sort_checks row.now) list.now }
{
    Fault::MisformedSort.refuse(misformed_word(row))?;
    Fault::MisformedSort.refuse(wrong_count(row, part_count(list)))?;
    Fault::MisnumberedSort.refuse(misnumbered_part(row))
}
