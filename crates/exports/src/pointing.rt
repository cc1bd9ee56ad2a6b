// The calls of a screen that is pointed at (2026-10): what lies at marks, a cable's own words, and the box around it.
ghost use Rattle.exports.specs.Pointing.{Pointed, Chosen, Enclosed};

use crate::refuse;
use locating::locate;
use selecting::{cable_bounds, select_cable};

// `locating::locate`: 0 with an answer stored for each mark, or the check's number with its place stored.
#[unsafe(no_mangle)]
pub extern "C" fn dovranis_locate(
    list: &[u32],
    sheet: &[u32],
    marks: &[u32],
    hits: &mut [u32],
    place: &mut usize,
) -> u32
    ensures { Pointed list.now sheet.now marks.now hits.old hits.new
        place.old place.new result }
{
    match locate(list, sheet, marks, hits) {
        Ok(()) => 0,
        Err(refusal) => refuse(refusal, place),
    }
}

// The part of the sheet that `selecting::cable_words` returns, by its start and its count: 0, or the check's number with its place stored,
// and then the part is empty.
#[unsafe(no_mangle)]
pub extern "C" fn dovranis_cable_words(
    list: &[u32],
    sheet: &[u32],
    line: usize,
    start: &mut usize,
    count: &mut usize,
    place: &mut usize,
) -> u32
    ensures { Chosen list.now sheet.now line start.new count.new
        place.old place.new result }
{
    match select_cable(list, sheet, line) {
        Ok(section) => {
            *start = section.start;
            *count = section.count;
            0
        }
        Err(refusal) => {
            *start = 0;
            *count = 0;
            refuse(refusal, place)
        }
    }
}

// `selecting::cable_bounds`: 0 with left, bottom, right and top stored, or the check's number with its place stored.
#[unsafe(no_mangle)]
pub extern "C" fn dovranis_cable_bounds(
    list: &[u32],
    sheet: &[u32],
    line: usize,
    bounds: &mut [u16; 4],
    place: &mut usize,
) -> u32
    ensures { Enclosed list.now sheet.now line bounds.old bounds.new
        place.old place.new result }
{
    match cable_bounds(list, sheet, line) {
        Ok(found) => {
            *bounds = [found.left, found.bottom, found.right, found.top];
            0
        }
        Err(refusal) => refuse(refusal, place),
    }
}
