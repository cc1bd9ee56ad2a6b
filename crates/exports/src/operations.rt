// The station editor's calls (2026-07): the document's 'try' and 'lay'.
ghost use Rattle.exports.specs.Editing.{noted, Tried, Laid};

use crate::refuse;
use editing::{commit, propose};
use editor::Proposal;

// `editing::propose`: 0 with the version stored, which makes the proposal with the two parts, or the check's number with its place stored.
#[unsafe(no_mangle)]
pub extern "C" fn dovranis_propose(
    row: &[u32],
    one: u32,
    other: u32,
    version: &mut u32,
    place: &mut usize,
) -> u32
    ensures { Tried one other row.now
        (noted version.old place.old) (noted version.new place.new) result }
{
    match propose(row, one, other) {
        Ok(proposal) => {
            *version = proposal.version;
            0
        }
        Err(refusal) => refuse(refusal, place),
    }
}

// `editing::commit`: 0 with the cable stored, or the check's number with its place stored.
#[unsafe(no_mangle)]
pub extern "C" fn dovranis_commit(row: &mut [u32], proposal: Proposal, place: &mut usize) -> u32
    ensures { Laid proposal row.old row.new place.old place.new result }
{
    match commit(row, proposal) {
        Ok(()) => 0,
        Err(refusal) => refuse(refusal, place),
    }
}
