// A sheet held against its list (request 2026-09): checks 1 to 10 of the list, then 19, the layout of the sheet's words, then 20, the rules
// for its lines. Nothing is written.
#![tactic(auto)]

ghost use Rattle.validation.specs.Outcome.{Validates};

use checks::{Fault, Refusal};
use ranking::check_and_rank;
use reader::check_layout;
use sweeping::check_lines;

// 'accepted exactly if its words follow the layout, no point exceeds its head, and every cable joins its own parts', as our sheets have it;
// or why the list or the sheet is sent back.
pub fn check_sheet(list: &[u32], sheet: &[u32]) -> Result<(), Refusal>
    ensures { Validates list.now sheet.now result }
{
    check_and_rank(list)?;
    Fault::OutOfLayout.refuse(check_layout(list, sheet))?;
    Fault::BrokenRule.refuse(check_lines(list, sheet))
}
