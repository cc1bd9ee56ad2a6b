// The call that holds a sheet against its list (2026-09).
ghost use Rattle.exports.specs.SheetCheck.{Held};

use crate::refuse;
use validating::check_sheet;

// `validating::check_sheet`: 0 for an accepted sheet, or the check's number with its place stored.
#[unsafe(no_mangle)]
pub extern "C" fn dovranis_check_sheet(list: &[u32], sheet: &[u32], place: &mut usize) -> u32
    ensures { Held list.now sheet.now place.old place.new result }
{
    match check_sheet(list, sheet) {
        Ok(()) => 0,
        Err(refusal) => refuse(refusal, place),
    }
}
