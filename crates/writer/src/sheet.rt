// A sheet's words, one behind the other: 'its head, the parts by number, then the cables by line, each followed by its corners', as they
// are spaced (2026-06); then the lengths (2026-01).
ghost use Rattle.std.specs.Prelude.{◌≡◌, [], ◌∷◌, map, ◌+◌, ◌≤◌, ◌<◌, length, get_or};
ghost use Rattle.words.specs.Limits.{most_field};
ghost use Rattle.lists.specs.Select.{one_if, cons_if};
ghost use Rattle.lists.specs.Stores.{Stored};
ghost use Rattle.words.specs.Words.{corner_word, cable_length_word};
ghost use Rattle.drawing.specs.Lengths.{cable_lengths};
ghost use Rattle.ranking.specs.Ranking.{Inverse};
ghost use Rattle.drawing.specs.Drawing.{spot_of};
ghost use Rattle.drawing.specs.Spacing.{spaced_spot, spaced};
ghost use Rattle.drawing.specs.Sheet.{
  part_spot_word,
  corner_spot_word,
  route_words,
  head_section,
  parts_section,
  cables_section,
  lengths_section,
  sheet_words,
};
ghost use Rattle.layout.specs.Points.{corners_of};
ghost use Rattle.placement.specs.Laid.{course_in};
ghost use Rattle.placement.specs.Arrays.{layout_in};
ghost use Rattle.layout.specs.Courses.{CourseFits};
ghost use Rattle.writer.specs.Values.{numbered_in, Fits};

use crate::records::{Record, put_records};
use drawing::spacing::Spacing;
use geometry::Spot;
use measuring::lengths::line_length;
use measuring::spacing::{head_of, space_course};
use placement::{Course, Layout};
use ranking::Ranking;
use words::{Rank, Word};

// A word, and the place behind it. The row and the place are two parameters, and no struct that borrows the row: `Stored` names what stood
// there before and after, which a clause on such a struct can only say through its entry and exit.
pub fn put(sheet: &mut [u32], at: usize, w: Word) -> usize
    requires { at < length sheet.old }
    ensures { Stored sheet.old at (w.0 ∷ []) sheet.new result }
{
    sheet[at] = w.0;
    at + 1
}

// The head, which fits its fields.
fn head_word(layout: &Layout, spacing: Spacing) -> Word
    requires fits { Fits spacing (layout_in layout.now) }
    ensures { result.0 ∷ [] ≡ head_section (spaced spacing (layout_in layout.now)) }
{
    let head = head_of(layout, spacing);
    Word::sheet_head(head.width as u16, head.height as u16)
}

// The word of the part of rank k: on the grid 'Rank k stands in row d + k.'
fn part_word(layout: &Layout, spacing: Spacing, k: Rank) -> Word
    requires fits { Fits spacing (layout_in layout.now) }
    requires k_lt_parts { k.0 < layout.now.graph.parts }
    ensures { result.0 ≡ part_spot_word (spaced_spot spacing (spot_of (layout_in layout.now) k.0)) }
{
    let spot = Spot {
        x: layout.columns.parts[k.0 as usize],
        y: layout.bottom_rows + k.0,
    };
    let there = spacing.space_spot(spot);
    Word::part(there.x, there.y)
}

// The parts by number.
fn put_parts(
    sheet: &mut [u32],
    at: usize,
    ranking: &Ranking,
    layout: &Layout,
    spacing: Spacing,
) -> usize
    requires fits { Fits spacing (layout_in layout.now) }
    requires inverse { Inverse layout.now.graph.parts ranking.now }
    requires parts_in_bounds { at + layout.now.graph.parts ≤ length sheet.old }
    ensures { Stored sheet.old at (parts_section (spaced spacing (numbered_in ranking.now layout.now))) sheet.new result }
{
    let mut next = at;
    for p in 0..layout.graph.parts {
        next = put(sheet, next, part_word(layout, spacing, ranking.rank[p]));
    }
    next
}

// A corner, where the line turns: a choice of its own, as `corners_of` has it, so that the corners are put one behind the other.
fn put_corner(sheet: &mut [u32], at: usize, turns: bool, x: u16, y: u16) -> usize
    requires turns_in_bounds { at + one_if turns ≤ length sheet.old }
    requires x_le_most_field { (x ≤ most_field) × (y ≤ most_field) }
    ensures { Stored sheet.old at (cons_if turns (corner_word x y) []) sheet.new result }
{
    if turns {
        put(sheet, at, Word::corner(x, y))
    } else {
        at
    }
}

// A cable's corners, 'from the lower-ranked end upward'.
fn put_corners(sheet: &mut [u32], at: usize, c: Course) -> usize
    requires course_fits { CourseFits (course_in c) }
    requires c_in_bounds { at + length (corners_of (course_in c)) ≤ length sheet.old }
    ensures { Stored sheet.old at (map corner_spot_word (corners_of (course_in c))) sheet.new result }
{
    let dips = c.from.y != c.low;
    let shifts = c.from.x != c.column;
    let second = put_corner(sheet, at, dips && shifts, c.from.x, c.low);
    let third = put_corner(sheet, second, dips || shifts, c.column, c.low);
    let fourth = put_corner(sheet, third, c.column != c.to.x, c.column, c.high);
    put_corner(sheet, fourth, c.high != c.to.y, c.to.x, c.high)
}

// A cable's own words. The head counts the corners, so that it is written behind them.
fn put_cable(sheet: &mut [u32], at: usize, line: u16, c: Course) -> usize
    requires course_fits { CourseFits (course_in c) }
    requires c_in_bounds { at + length (route_words line (corners_of (course_in c))) ≤ length sheet.old }
    ensures { Stored sheet.old at (route_words line (corners_of (course_in c))) sheet.new result }
{
    let next = put_corners(sheet, at + 1, c);
    put(sheet, at, Word::sheet_cable(line, (next - at - 1) as u16));
    next
}

// The cables by line.
fn put_cables(sheet: &mut [u32], at: usize, layout: &Layout, spacing: Spacing) -> usize
    requires fits { Fits spacing (layout_in layout.now) }
    requires layout_in_bounds { at + length (cables_section (spaced spacing (layout_in layout.now))) ≤ length sheet.old }
    ensures { Stored sheet.old at (cables_section (spaced spacing (layout_in layout.now))) sheet.new result }
{
    let mut next = at;
    for line in 0..layout.graph.cables {
        let course = space_course(layout.courses[line], spacing);
        next = put_cable(sheet, next, line as u16, course);
    }
    next
}

// A cable's length word, which has its steps.
fn length_record(layout: &Layout, line: usize) -> Record
    requires { line < layout.now.graph.cables }
    ensures word { result.word.0 ≡ cable_length_word line (get_or (cable_lengths (layout_in layout.now)) line 0) }
    ensures number { result.number ≡ get_or (cable_lengths (layout_in layout.now)) line 0 }
{
    let steps = line_length(layout.courses[line]);
    Record {
        word: Word::cable_length(line as u16, steps),
        number: u32::from(steps),
    }
}

// The length of each cable by line, then their total.
fn put_lengths(sheet: &mut [u32], at: usize, layout: &Layout) -> usize
    requires layout_in_bounds { at + length (lengths_section (layout_in layout.now)) ≤ length sheet.old }
    ensures { Stored sheet.old at (lengths_section (layout_in layout.now)) sheet.new result }
{
    let count = layout.graph.cables;
    let total = put_records(sheet, at, count, |line| length_record(layout, line));
    put(sheet, at + count, Word::total_length(total))
}

// All words of a sheet, from the front.
pub fn put_sheet(sheet: &mut [u32], ranking: &Ranking, layout: &Layout, spacing: Spacing) -> usize
    requires fits { Fits spacing (layout_in layout.now) }
    requires inverse { Inverse layout.now.graph.parts ranking.now }
    requires layout_in_bounds { length (sheet_words spacing (layout_in layout.now)) ≤ length sheet.old }
    ensures { Stored sheet.old 0 (sheet_words spacing (numbered_in ranking.now layout.now)) sheet.new result }
{
    let parts = put(sheet, 0, head_word(layout, spacing));
    let cables = put_parts(sheet, parts, ranking, layout, spacing);
    let lengths = put_cables(sheet, cables, layout, spacing);
    put_lengths(sheet, lengths, layout)
}
