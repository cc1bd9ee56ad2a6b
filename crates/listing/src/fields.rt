// What later stages read of a list that passed.
ghost use Rattle.std.specs.Prelude.{◌≡◌, ℕ, ◌+◌, ◌<◌, ◌≤◌, length, get_or};
ghost use Rattle.words.specs.Limits.{most_parts};
ghost use Rattle.station.specs.Station.{no_cable, station_of, degree};
ghost use Rattle.checks.specs.Checks.{Clear};
ghost use Rattle.station.specs.Code.{up_to};

use words::limits::MOST_PARTS;
use words::{Part, Word};

// n, the count of parts.
pub fn part_count(list: &[u32]) -> usize
    requires { 2 ≤ length list.now }
    ensures { result ≡ (station_of list.now).parts }
{
    Word(list[0]).parts() as usize
}

// m, the count of cables.
pub fn cable_count(list: &[u32]) -> usize
    requires { 2 ≤ length list.now }
    ensures { result ≡ length (station_of list.now).cables }
{
    list.len() - 2
}

// s, the source. A function for each of the ends and of a cable's parts, since callers name the one that they mean.
pub fn source(list: &[u32]) -> Part
    requires { 2 ≤ length list.now }
    ensures { result.0 ≡ (station_of list.now).source }
{
    Part(Word(list[1]).first())
}

// t, the analyser.
pub fn analyser(list: &[u32]) -> Part
    requires { 2 ≤ length list.now }
    ensures { result.0 ≡ (station_of list.now).analyser }
{
    Part(Word(list[1]).second())
}

// The part that a cable's word names first.
pub fn one_part(list: &[u32], line: usize) -> Part
    requires { 2 + line < length list.now }
    ensures { result.0 ≡ (get_or (station_of list.now).cables line no_cable).one }
{
    Part(Word(list[2 + line]).first())
}

// The part that a cable's word names second.
pub fn other_part(list: &[u32], line: usize) -> Part
    requires { 2 + line < length list.now }
    ensures { result.0 ≡ (get_or (station_of list.now).cables line no_cable).other }
{
    Part(Word(list[2 + line]).second())
}

// The cables of each part, counted: its degree.
pub fn cables_per_part(list: &[u32]) -> [u16; MOST_PARTS]
    requires { Clear (up_to 6) list.now }
    ensures { (p : ℕ) → p < most_parts → get_or result p 0 ≡ degree (station_of list.now).cables p }
{
    let mut counts = [0u16; MOST_PARTS];
    for i in 2..list.len() {
        let a = Word(list[i]).first() as usize;
        let b = Word(list[i]).second() as usize;
        counts[a] += 1;
        counts[b] += 1;
    }
    counts
}
