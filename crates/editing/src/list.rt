// The list in a row: its length, its checks 1 to 8, and one cable stored behind it.
ghost use Rattle.std.specs.Prelude.{◌≡◌, ◌<◌, length};
ghost use Rattle.checks.specs.Checks.{first_refusal};
ghost use Rattle.editor.specs.Rows.{present, list_in};
ghost use Rattle.editor.specs.Checks.{row_checks};
ghost use Rattle.editor.specs.Operations.{stored};
ghost use Rattle.editing.specs.Code.{Storable};

use checks::Refusal;
use editor::Proposal;
use words::{Part, Word};

// m, 'the count of cables then present'.
pub fn cables_present(row: &[u32]) -> u32
    requires { 0 < length row.now }
    ensures { result ≡ present row.now }
{
    Word(row[0]).cables() as u32
}

// The length of the list in a row: 'the row's first m + 2 words', or what there is of them.
pub fn list_length(row: &[u32]) -> usize
    ensures { result ≡ length (list_in row.now) }
{
    if row.is_empty() {
        return 0;
    }
    row.len().min(cables_present(row) as usize + 2)
}

// 'Each call first makes checks 1 to 8 on it'.
pub fn check_row(row: &[u32]) -> Result<(), Refusal>
    ensures { result ≡ first_refusal row_checks row.now }
{
    listing::check_list(&row[..list_length(row)])
}

// 'adds the cable's word, raises m by 1 and touches no other word'.
pub fn store_cable(row: &mut [u32], proposal: Proposal)
    requires { Storable proposal row.old }
    ensures { row.new ≡ stored proposal row.old }
{
    let n = Word(row[0]).parts();
    let m = Word(row[0]).cables();
    let one = Part(proposal.one as u16);
    let other = Part(proposal.other as u16);
    row[m as usize + 2] = Word::cable(one, other).0;
    row[0] = Word::list_head(n, m + 1).0;
}
