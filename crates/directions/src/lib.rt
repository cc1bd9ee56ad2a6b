// The direction in which each cable's corners are read (request 2026-09), as far as they alternate in it.
#![tactic(auto)]

use crate::strands::{Line, Strand};
use listing::fields::{cable_count, part_count};
use words::Word;

pub mod facing;
pub mod strands;

ghost use Rattle.std.specs.Prelude.{◌≡◌, ◌+◌, ◌≤◌, length, get_or};
ghost use Rattle.words.specs.Limits.{most_cables};
ghost use Rattle.words.specs.Words.{second_of};
ghost use Rattle.checks.specs.Checks.{Clear};
ghost use Rattle.station.specs.Station.{station_of};
ghost use Rattle.order.specs.Checks.{all_checks};
ghost use Rattle.validation.specs.Directions.{shown};
ghost use Rattle.validation.specs.Layout.{Follows};
ghost use Rattle.sweep.specs.Judged.{Faced};
ghost use Rattle.directions.specs.Code.{corner_words, CornersOf, trace_of, trace_at};

// The words of the corners of the cable whose word stands at this place.
pub fn corners_at(sheet: &[u32], at: usize) -> &[u32]
    requires { at + 1 + second_of (get_or sheet.now at 0) ≤ length sheet.now }
    ensures { result.now ≡ corner_words sheet.now at }
{
    let start = at + 1;
    &sheet[start..start + Word(sheet[at]).second() as usize]
}

impl Line<'_> {
    // The line of the cable at a line of the list, read in a direction, with its corners' words.
    pub fn of<'a>(
        list: &[u32],
        sheet: &[u32],
        line: usize,
        forward: bool,
        corners: &'a [u32],
    ) -> Line<'a>
        requires { CornersOf list.now sheet.now line corners.now }
        ensures { trace_of result ≡ trace_at (station_of list.now) (shown (station_of list.now) sheet.now) forward line }
    {
        Strand::of(list, line, forward).over(sheet, corners)
    }
}

// The direction of each cable up to the first that does not alternate in its own: how many do.
#[tactic(auto, using(order::proofs::Passed::words_10, order::proofs::Passed::list_wired))]
pub fn choose_directions(list: &[u32], sheet: &[u32], forward: &mut [bool]) -> usize
    requires clear { Clear all_checks list.now }
    requires follows { Follows (station_of list.now).parts (length (station_of list.now).cables) sheet.now }
    requires most_cables_in_bounds { most_cables ≤ length forward.old }
    ensures { Faced (station_of list.now) sheet.now forward.new result }
{
    let m = cable_count(list);
    let mut at = 1 + part_count(list);
    for i in 0..m {
        let corners = corners_at(sheet, at);
        let facing = Line::of(list, sheet, i, true, corners).faces_forward();
        if !Line::of(list, sheet, i, facing, corners).alternates() {
            return i;
        }
        forward[i] = facing;
        at += 1 + corners.len();
    }
    m
}
