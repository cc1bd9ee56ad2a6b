// The station editor's operations on a list that grows in a lent row, one cable at a time (request 2026-07): a cable is proposed, and the
// proposal committed, in the terms of optimistic concurrency control.
#![tactic(auto)]

use checks::{Fault, Refusal};
use editor::Proposal;
use list::{cables_present, check_row};

mod cable;
mod list;

ghost use Rattle.std.specs.Prelude.{◌≡◌};
ghost use Rattle.checks.specs.Checks.{Clear, first_refusal};
ghost use Rattle.editor.specs.Checks.{row_checks, new_checks, commit_checks};
ghost use Rattle.editor.specs.Operations.{Commit, effect, proposed};

// Checks 5 to 8 of the list with the new cable, and 16, where the list passes checks 1 to 8.
fn check_new(row: &[u32], one: u32, other: u32) -> Result<(), Refusal>
    requires { Clear row_checks row.now }
    ensures { result ≡ first_refusal (new_checks one other) row.now }
{
    let length = list::list_length(row);
    cable::check_cable(&row[..length], one, other)?;
    if row.len() <= length {
        return Err(Refusal {
            fault: Fault::RowFull,
            place: row.len(),
        });
    }
    Ok(())
}

// The checks of a commit: those of the list as it is, 15, and those of the new cable anew.
fn check_commit(row: &[u32], proposal: Proposal) -> Result<(), Refusal>
    ensures { result ≡ first_refusal (commit_checks proposal) row.now }
{
    check_row(row)?;
    let present = cables_present(row);
    if proposal.version != present {
        return Err(Refusal {
            fault: Fault::StaleProposal,
            place: present as usize,
        });
    }
    check_new(row, proposal.one, proposal.other)
}

// The document's 'try': a proposal of this cable for the list in the row, or the refusal that it would get.
pub fn propose(row: &[u32], one: u32, other: u32) -> Result<Proposal, Refusal>
    ensures { result ≡ proposed one other row.now }
{
    check_row(row)?;
    check_new(row, one, other)?;
    let version = cables_present(row);
    Ok(Proposal {
        one,
        other,
        version,
    })
}

// The document's 'lay': the proposal's cable becomes the last of the list in the row, or the row stays as it is.
pub fn commit(row: &mut [u32], proposal: Proposal) -> Result<(), Refusal>
    ensures { record { verdict = result; row = row.new } ≡ effect (Commit proposal) row.old }
{
    check_commit(row, proposal)?;
    list::store_cable(row, proposal);
    Ok(())
}
