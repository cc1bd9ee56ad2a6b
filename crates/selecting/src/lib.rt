// A chosen cable (request 2026-10): its own words of the lent sheet, and the box around it.
#![tactic(auto)]

ghost use Rattle.std.specs.Prelude.{◌≡◌, ◌<◌, length};
ghost use Rattle.checks.specs.Checks.{Clear};
ghost use Rattle.station.specs.Station.{station_of};
ghost use Rattle.order.specs.Checks.{all_checks};
ghost use Rattle.validation.specs.Layout.{Follows, cable_place};
ghost use Rattle.bounds.specs.Boxes.{box_of};
ghost use Rattle.directions.specs.Code.{trace_of, points_along};
ghost use Rattle.location.specs.Outcome.{Selects, OwnWords, Encloses};

use bounds::Bounds;
use checks::{Fault, Refusal};
use directions::corners_at;
use directions::strands::{Line, spot_in};
use listing::fields::{cable_count, part_count};
use location::Section;
use validating::check_sheet;
use words::Word;

// The place of the cable's word.
#[tactic(auto, using(order::proofs::Passed::words_10))]
fn place_of(list: &[u32], sheet: &[u32], line: usize) -> usize
    requires clear { Clear all_checks list.now }
    requires follows { Follows (station_of list.now).parts (length (station_of list.now).cables) sheet.now }
    requires line_in_bounds { line < length (station_of list.now).cables }
    ensures { result ≡ cable_place (station_of list.now).parts sheet.now line }
{
    let mut at = 1 + part_count(list);
    for _cable in 0..line {
        at += 1 + corners_at(sheet, at).len();
    }
    at
}

// Where a cable's own words start and how many they are, or why list, sheet or line are sent back.
pub fn select_cable(list: &[u32], sheet: &[u32], line: usize) -> Result<Section, Refusal>
    ensures { Selects list.now sheet.now line result }
{
    if let Err(Refusal { place, .. }) = check_sheet(list, sheet) {
        return Err(Refusal {
            fault: Fault::SheetRefused,
            place,
        });
    }
    if line >= cable_count(list) {
        return Err(Refusal {
            fault: Fault::NoSuchLine,
            place: line,
        });
    }
    let start = place_of(list, sheet, line);
    let count = 1 + Word(sheet[start]).second() as usize;
    Ok(Section { start, count })
}

// 'that cable's own words of the sheet, head and corners, without a copy. On a refusal that part is empty'.
pub fn cable_words<'a>(list: &[u32], sheet: &'a [u32], line: usize) -> &'a [u32]
    ensures { OwnWords list.entry sheet.entry result line }
{
    let Ok(Section { start, count }) = select_cable(list, sheet, line) else {
        return &sheet[0..0];
    };
    let end = start + count;
    &sheet[start..end]
}

// 'from one of the cable's points alone, the box .. grows to include one more point at a time': from its first point over its corners to its
// last.
fn box_over(line: Line<'_>) -> Bounds
    ensures { result ≡ box_of (points_along (trace_of line.entry)) }
{
    let mut bounds = Bounds::around(line.first.x, line.first.y);
    for &word in line.corners {
        let corner = spot_in(word);
        bounds = bounds.included(corner.x, corner.y);
    }
    bounds.included(line.last.x, line.last.y)
}

// 'the smallest that holds all points of that cable', or why list, sheet or line are sent back.
pub fn cable_bounds(list: &[u32], sheet: &[u32], line: usize) -> Result<Bounds, Refusal>
    ensures { Encloses list.now sheet.now line result }
{
    let own = select_cable(list, sheet, line)?;
    let corners = corners_at(sheet, own.start);
    Ok(box_over(Line::of(list, sheet, line, true, corners)))
}
