// Check 8: a part with more than four cables.
ghost use Rattle.std.specs.Prelude.{◌≡◌};
ghost use Rattle.checks.specs.Checks.{Clear};
ghost use Rattle.station.specs.Checks.{check8};
ghost use Rattle.station.specs.Code.{up_to};

use crate::fields;
use words::limits::MOST_DEGREE;

// 8: 'a part with more than four cables', 'lowest such part'.
pub fn crowded_part(list: &[u32]) -> Option<usize>
    requires { Clear (up_to 6) list.now }
    ensures { result ≡ check8 list.now }
{
    let n = fields::part_count(list);
    let counts = fields::cables_per_part(list);
    counts[..n]
        .iter()
        .position(|&count| MOST_DEGREE < count as usize)
}
