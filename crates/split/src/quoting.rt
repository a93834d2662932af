// Making a quote: the lump sums granted, what remains of each pension, and the second instalments.
ghost use Rattle.std.specs.Prelude.{◌≡◌, false, ◌-◌, ◌*◌, ◌/◌, ◌≤◌, length, map, All};
ghost use Rattle.split.specs.Case.{pensions_at, allowance_used_at, head_length, case_length};
ghost use Rattle.split.specs.Bytes.{FieldOf};
ghost use Rattle.split.specs.Refusal.{bad_length};
ghost use Rattle.split.specs.Quote.{padded, no_share, answered};
ghost use Rattle.split.specs.Working.{share_in, lump_total, case_quote};
ghost use Rattle.split.specs.Ranges.{LumpRange, ShareRange};

use crate::answers::{Granted, Share};
use crate::case::Head;
use crate::frame::{Field, LONGEST};
use crate::limits::PensionRow;
use crate::{allowance, case, grant, limits, pensions};
use factors::effective::Factor;
use factors::money::{LumpPence, YearlyPence};
use refusals::Refusal;

fn no_share() -> Share
    ensures { result ≡ no_share }
{
    Share {
        lump: LumpPence(0),
        remaining: YearlyPence(0),
        second: LumpPence(0),
    }
}

// What remains of a pension once a lump is taken.
fn remaining_of(pension: YearlyPence, e: Factor, lump: LumpPence) -> YearlyPence
    requires { LumpRange pension.0 e lump.0 }
    ensures { result.0 ≡ pension.0 - lump.0 * e.bottom / e.top }
{
    let given_up = lump.0 as u64 * e.bottom / e.top;
    YearlyPence(pension.0 - given_up as u32)
}

// The second instalment of an increase, which is 0 but for a pension after a break.
fn second_of(increase: u16, lump: LumpPence) -> LumpPence
    requires { (lump.0 ≤ 1000000000) × (increase ≤ 10000) }
    ensures { result.0 ≡ lump.0 * increase / 10000 }
{
    LumpPence((lump.0 as u64 * increase as u64 / 10000) as u32)
}

// The share of a row that was given its lump.
fn share_of(row: &PensionRow) -> Share
    requires { ShareRange row.now }
    ensures { result ≡ share_in row.now }
{
    let benefit = row.benefit;
    Share {
        lump: row.lump,
        remaining: remaining_of(benefit.pension, benefit.factor, row.lump),
        second: second_of(row.increase, row.lump),
    }
}

// The shares of rows, and zeros in the places after them.
fn shares_of(rows: &[PensionRow]) -> [Share; 4]
    requires few { length rows.now ≤ 4 }
    requires ranges { All ShareRange rows.now }
    ensures { result ≡ padded (map share_in rows.now) }
{
    let mut shares = [no_share(); 4];
    for (i, row) in rows.iter().enumerate() {
        shares[i] = share_of(row);
    }
    shares
}

// The lumps of rows together.
fn total_of(rows: &[PensionRow]) -> LumpPence
    requires { lump_total rows.now ≤ 1000000000 }
    ensures { result.0 ≡ lump_total rows.now }
{
    LumpPence(rows.iter().map(|row| row.lump.0).sum())
}

// The quote of a case of which the head was read, in a line of so many characters.
pub fn case_quote(
    bytes: &[u8; LONGEST],
    head: Field<Head>,
    characters: usize,
) -> Result<Granted, Refusal>
    requires { (head.next.at ≡ head_length) × (bad_length characters head.value.count ≡ false) }
    ensures { FieldOf bytes.now characters (answered result) (λ s. case_quote head.value (pensions_at s head.value.count) (allowance_used_at s (case_length head.value.count) characters)) }
{
    let Field { value: head, next } = head;
    let mut places = [limits::no_row(); 4];
    let rows = &mut places[..head.count as usize];
    let next = pensions::work_out(bytes, next, head, rows)?;
    let used = case::read_allowance_used(bytes, next, characters);
    let allowance = allowance::allowance_of(head.commencement, used);
    grant::grant_of(rows, allowance);
    Ok(Granted {
        member: head.member,
        total: total_of(rows),
        shares: shares_of(rows),
    })
}
