// The words of a sheet held against the layout (request 2026-09, 19): by position, one after the other.
#![tactic(auto)]

ghost use Rattle.std.specs.Prelude.{◌≡◌, ◌+◌, ◌<◌, ◌≤◌, length, get_or};
ghost use Rattle.words.specs.Words.{kind_number};
ghost use Rattle.checks.specs.Checks.{Clear};
ghost use Rattle.station.specs.Station.{station_of};
ghost use Rattle.order.specs.Checks.{all_checks};
ghost use Rattle.validation.specs.Layout.{is_head, is_point, is_cable_at, misplaced, points_fault, cables_fault, check19};

use listing::fields::{cable_count, part_count};
use words::{Kind, Word};

// A head without a spare bit.
#[tactic(auto, unfolding(validation::specs::Layout::is_head))]
fn is_head(word: Word) -> bool
    ensures { result ≡ is_head word.0 }
{
    word.is(Kind::SheetHead) && word.spare() == 0
}

// A part or a corner inside the head.
#[tactic(auto, unfolding(validation::specs::Layout::is_point))]
fn is_point(kind: Kind, head: Word, word: Word) -> bool
    ensures { result ≡ is_point (kind_number kind) head.0 word.0 }
{
    word.is(kind)
        && word.spare() == 0
        && word.first() <= head.first()
        && word.second() <= head.second()
}

// The cable of a line.
#[tactic(auto, unfolding(validation::specs::Layout::is_cable_at))]
fn is_cable_at(line: usize, word: Word) -> bool
    ensures { result ≡ is_cable_at line word.0 }
{
    word.is(Kind::SheetCable) && word.line() as usize == line
}

// The first word is missing, or is no head.
#[tactic(auto, unfolding(validation::specs::Layout::misplaced))]
fn no_head(sheet: &[u32]) -> bool
    ensures { result ≡ misplaced is_head sheet.now 0 }
{
    match sheet.first() {
        Some(&word) => !is_head(Word(word)),
        None => true,
    }
}

// The word at this place is missing, or is no such point.
#[tactic(auto, unfolding(validation::specs::Layout::misplaced))]
fn no_point(sheet: &[u32], kind: Kind, head: Word, at: usize) -> bool
    ensures { result ≡ misplaced (is_point (kind_number kind) head.0) sheet.now at }
{
    match sheet.get(at) {
        Some(&word) => !is_point(kind, head, Word(word)),
        None => true,
    }
}

// The word at this place is missing, or is not the cable of this line.
#[tactic(auto, unfolding(validation::specs::Layout::misplaced))]
fn no_cable(sheet: &[u32], line: usize, at: usize) -> bool
    ensures { result ≡ misplaced (is_cable_at line) sheet.now at }
{
    match sheet.get(at) {
        Some(&word) => !is_cable_at(line, Word(word)),
        None => true,
    }
}

// The first of some words that is out of place: parts, or the corners of a cable.
fn points_fault(sheet: &[u32], kind: Kind, at: usize, count: usize) -> Option<usize>
    requires sheet_nonzero { 0 < length sheet.now }
    requires at_in_bounds { at ≤ length sheet.now }
    requires count_bound { count < 4096 }
    ensures { result ≡ points_fault (kind_number kind) (get_or sheet.now 0 0) sheet.now at count }
{
    let head = Word(sheet[0]);
    (at..at + count).find(|&i| no_point(sheet, kind, head, i))
}

// The first word out of place among the cables and their corners, which begin at this place.
fn cables_fault(sheet: &[u32], first: usize, cables: usize) -> Option<usize>
    requires sheet_nonzero { 0 < length sheet.now }
    requires first_in_bounds { first ≤ length sheet.now }
    ensures { result ≡ cables_fault (get_or sheet.now 0 0) sheet.now 0 cables first }
{
    let mut at = first;
    for line in 0..cables {
        if no_cable(sheet, line, at) {
            return Some(at);
        }
        let count = Word(sheet[at]).second() as usize;
        if let Some(place) = points_fault(sheet, Kind::Corner, at + 1, count) {
            return Some(place);
        }
        at += 1 + count;
    }
    None
}

// 'a word out of the layout, missing, or a point beyond the head, place the first such word', of a list that passed.
#[tactic(auto, using(order::proofs::Passed::words_10))]
pub fn check_layout(list: &[u32], sheet: &[u32]) -> Option<usize>
    requires { Clear all_checks list.now }
    ensures { result ≡ check19 (station_of list.now).parts (length (station_of list.now).cables)
        sheet.now }
{
    if no_head(sheet) {
        return Some(0);
    }
    let n = part_count(list);
    if let Some(place) = points_fault(sheet, Kind::Part, 1, n) {
        return Some(place);
    }
    cables_fault(sheet, 1 + n, cable_count(list))
}
