// A station's list in code: checks 1 to 8 of document 01, and what later stages read of a list that passed them.
#![tactic(auto)]

use checks::{Fault, Refusal};

mod degrees;
pub mod fields;
mod form;
mod parts;

ghost use Rattle.std.specs.Prelude.{◌≡◌};
ghost use Rattle.checks.specs.Checks.{first_refusal, Clear};
ghost use Rattle.station.specs.Checks.{list_checks};
ghost use Rattle.station.specs.Code.{up_to};

// Checks 5 to 8, where checks 1 to 4 find nothing.
fn check_parts(list: &[u32]) -> Result<(), Refusal>
    requires { Clear (up_to 4) list.now }
    ensures { result ≡ first_refusal list_checks list.now }
{
    Fault::PartOutside.refuse(parts::outside_word(list))?;
    Fault::SelfLoop.refuse(parts::loop_word(list))?;
    Fault::CrowdedPart.refuse(degrees::crowded_part(list))
}

// 'Checks run in this order, each over the whole list before the next. The first that applies is the refusal.'
pub fn check_list(list: &[u32]) -> Result<(), Refusal>
    ensures { result ≡ first_refusal list_checks list.now }
{
    Fault::TooFewWords.refuse(form::too_short(list))?;
    Fault::MisplacedWord.refuse(form::misplaced_word(list))?;
    Fault::WrongLength.refuse(form::wrong_length(list))?;
    Fault::WrongPartCount.refuse(form::wrong_parts(list))?;
    check_parts(list)
}
