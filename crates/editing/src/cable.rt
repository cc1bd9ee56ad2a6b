// Checks 5, 6 and 8 of a list with one more cable, made on the list as it is: it has passed them, so that only the new cable can fail.
ghost use Rattle.std.specs.Prelude.{◌≡◌, ◌||◌, ◌<◌, leb};
ghost use Rattle.station.specs.Station.{station_of};
ghost use Rattle.checks.specs.Checks.{Clear, first_refusal};
ghost use Rattle.station.specs.Checks.{list_checks, check8};
ghost use Rattle.editor.specs.Rows.{longer};
ghost use Rattle.editor.specs.Checks.{cable_checks};

use checks::{Fault, Refusal};
use listing::fields;
use words::limits::MOST_DEGREE;

// 8: the lower of the two parts that has as many cables as it may.
fn crowded_end(list: &[u32], one: usize, other: usize) -> Option<usize>
    requires clear { Clear list_checks list.now }
    requires one_inside { one < (station_of list.now).parts }
    requires other_inside { other < (station_of list.now).parts }
    ensures { result ≡ check8 (longer one other list.now) }
{
    let counts = fields::cables_per_part(list);
    let low = one.min(other);
    if MOST_DEGREE <= counts[low] as usize {
        return Some(low);
    }
    let high = one.max(other);
    if MOST_DEGREE <= counts[high] as usize {
        return Some(high);
    }
    None
}

// A part number of the cable is n or more.
fn is_outside(n: u32, one: u32, other: u32) -> bool
    ensures { result ≡ (leb n one || leb n other) }
{
    n <= one || n <= other
}

// 'the refusal among 5 to 8 that the longer list would get'; where a word is found, it is the new one, at m + 2.
pub fn check_cable(list: &[u32], one: u32, other: u32) -> Result<(), Refusal>
    requires { Clear list_checks list.now }
    ensures { result ≡ first_refusal (cable_checks one other) list.now }
{
    let place = list.len();
    if is_outside(fields::part_count(list) as u32, one, other) {
        return Err(Refusal {
            fault: Fault::PartOutside,
            place,
        });
    }
    if one == other {
        return Err(Refusal {
            fault: Fault::SelfLoop,
            place,
        });
    }
    Fault::CrowdedPart.refuse(crowded_end(list, one as usize, other as usize))
}
