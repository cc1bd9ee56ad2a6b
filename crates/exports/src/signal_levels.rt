// The call that finds the signal levels at every part (2026-08).
ghost use Rattle.exports.specs.Counts.{counted};
ghost use Rattle.exports.specs.SignalLevels.{Metered};

use crate::refuse;
use levelling::find_levels;

// `levelling::find_levels`: 0 with the count of floats stored, or the check's number with its place stored.
#[unsafe(no_mangle)]
pub extern "C" fn dovranis_levels(
    list: &[u32],
    sorts: &[u32],
    levels: &mut [f32],
    floats: &mut usize,
    place: &mut usize,
) -> u32
    ensures { Metered list.now sorts.now levels.old levels.new
        (counted floats.old place.old) (counted floats.new place.new) result }
{
    match find_levels(list, sorts, levels) {
        Ok(count) => {
            *floats = count;
            0
        }
        Err(refusal) => refuse(refusal, place),
    }
}
