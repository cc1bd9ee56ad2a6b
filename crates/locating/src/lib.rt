// What lies at the marks of a technician (request 2026-10), in the field's terms hit testing: the sheet is judged once, then each mark is
// one pass over its words.
#![tactic(auto)]

use crate::hits::Screen;
use checks::{Fault, Refusal};
use directions::choose_directions;
use validating::check_sheet;
use words::limits::{MOST_CABLES, MOST_MARKS};

mod hits;
mod lines;

ghost use Rattle.location.specs.Outcome.{Locates};

// What lies at each mark, or why marks, list or sheet are sent back. Behind the answers the row stays as it was.
pub fn locate(list: &[u32], sheet: &[u32], marks: &[u32], hits: &mut [u32]) -> Result<(), Refusal>
    ensures { Locates list.now sheet.now marks.now hits.old hits.new result }
{
    let count = marks.len();
    if count > MOST_MARKS {
        return Err(Refusal {
            fault: Fault::TooManyMarks,
            place: count,
        });
    }
    if let Err(Refusal { place, .. }) = check_sheet(list, sheet) {
        return Err(Refusal {
            fault: Fault::SheetRefused,
            place,
        });
    }
    if hits.len() < count {
        return Err(Refusal {
            fault: Fault::OutputTooShort,
            place: count,
        });
    }
    let mut forward = [false; MOST_CABLES];
    choose_directions(list, sheet, &mut forward);
    let screen = Screen {
        list,
        sheet,
        forward: &forward,
    };
    screen.answer_all(marks, &mut hits[..count]);
    Ok(())
}
