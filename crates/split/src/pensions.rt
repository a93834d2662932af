// The pensions of a case one after the other: each is read, held to the rules, and worked out.
ghost use Rattle.std.specs.Prelude.{◌≡◌, ◌≤◌, cond, ltb, length, IfOk};
ghost use Rattle.refusals.specs.Numbers.{refusal_number};
ghost use Rattle.split.specs.Case.{head_length, case_length};
ghost use Rattle.split.specs.Working.{WorkedOut};

use crate::basis::Basis;
use crate::case::Head;
use crate::frame::{Cursor, LONGEST};
use crate::limits::PensionRow;
use crate::{case, refusal};
use refusals::Refusal;

// The refusal of pensions that state so much together.
fn total_refusal(stated: u64) -> Result<(), Refusal>
    ensures { refusal_number result ≡ cond (ltb 50000000 stated) 10 0 }
{
    if 50000000 < stated {
        return Err(Refusal::PensionOutsideRange);
    }
    Ok(())
}

// Refusals 3 to 10 of a case with a pension for each row, the first of which is where the cursor stands; and where there is
// none, the row of each pension and the cursor behind the last. One loop does it all, so that no pension is kept.
pub fn work_out(
    bytes: &[u8; LONGEST],
    at: Cursor,
    head: Head,
    rows: &mut [PensionRow],
) -> Result<Cursor, Refusal>
    requires start { at.at ≡ head_length }
    requires few { length rows.old ≤ 4 }
    ensures worked { WorkedOut head bytes.now (length rows.old) (refusal_number result) rows.new }
    ensures behind { IfOk result (λ next. next.at ≡ case_length (length rows.old)) }
{
    let basis = Basis::of(head);
    let mut refused = basis.head_refusal();
    let mut stated: u64 = 0;
    let mut next = at;
    for row in rows.iter_mut() {
        let read = case::read_pension(bytes, next);
        let p = read.value;
        refused = refusal::lower_of(refused, basis.pension_refusal(p));
        stated += p.stated.0 as u64;
        if refused.is_ok() & (stated <= 50000000) {
            *row = basis.row_of(p);
        }
        next = read.next;
    }
    refusal::lower_of(refused, total_refusal(stated))?;
    Ok(next)
}
