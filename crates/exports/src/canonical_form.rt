// The call that puts a list into canonical form (2026-13), the documents' 'settled form'.
ghost use Rattle.exports.specs.Counts.{counted};
ghost use Rattle.exports.specs.CanonicalForm.{Settled};

use crate::refuse;
use canonicalizing::canonicalize;

// `canonicalizing::canonicalize`: 0 with the count of words stored, or the check's number with its place stored.
#[unsafe(no_mangle)]
pub extern "C" fn dovranis_canonicalize(
    list: &[u32],
    canonical: &mut [u32],
    words: &mut usize,
    place: &mut usize,
) -> u32
    ensures { Settled list.now canonical.old canonical.new
        (counted words.old place.old) (counted words.new place.new) result }
{
    match canonicalize(list, canonical) {
        Ok(count) => {
            *words = count;
            0
        }
        Err(refusal) => refuse(refusal, place),
    }
}
