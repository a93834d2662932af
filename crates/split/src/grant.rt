// The grant: lowest price first, equal prices in line order, each pension the most its cap, what is left of the priced limit
// and what is left of the allowance allow.
ghost use Rattle.std.specs.Prelude.{◌≡◌, ◌*◌, ◌/◌, ◌≤◌, ◌<◌, min, length, map, All, MatchOption};
ghost use Rattle.split.specs.declared.limits.PensionRow.{PensionRow};
ghost use Rattle.split.specs.Limits.{priced_limit};
ghost use Rattle.split.specs.Grant.{Row, goes_first, cheapest, turns};
ghost use Rattle.split.specs.Working.{allowance_by, benefits_in, row_in, before_turn, pension_total};

use crate::allowance;
use crate::limits::PensionRow;
use factors::money::LumpPence;

// Whether a price has its turn before one behind it: lowest price first, equal prices in line order.
fn goes_first(price: u64, behind: u64) -> bool
    ensures { (row other : Row) → row.price ≡ price → other.price ≡ behind → result ≡ goes_first row other }
{
    price <= behind
}

// The place of the first waiting row of the lowest price, if one waits.
fn cheapest_place(rows: &[PensionRow]) -> Option<usize>
    ensures { MatchOption result (cheapest (map row_in rows.now) ≡ length rows.now) (λ place. (place < length rows.now) × (place ≡ cheapest (map row_in rows.now))) }
{
    let mut best: Option<usize> = None;
    for i in (0..rows.len()).rev() {
        let row = &rows[i];
        let first = match best {
            Some(place) => goes_first(row.price, rows[place].price),
            None => true,
        };
        if row.waiting & first {
            best = Some(i);
        }
    }
    best
}

// The most that a cap and what is left of the limit allow.
fn most_of(cap: LumpPence, price: u64, left: u64) -> LumpPence
    requires { 0 < price }
    ensures { result.0 ≡ min cap.0 (left / price) }
{
    LumpPence((cap.0 as u64).min(left / price) as u32)
}

// The rows have their turns one after the other, and are given their lumps.
fn take_turns(rows: &mut [PensionRow], limit: u64, allowance: Option<LumpPence>)
    requires { All (λ r. 0 < r.price) rows.old }
    ensures taken { map row_in rows.new ≡ turns (length rows.old) (map row_in rows.old) limit (allowance_by allowance) }
    ensures kept { map before_turn rows.new ≡ map before_turn rows.old }
{
    let mut left = limit;
    let mut rest = allowance;
    for _ in 0..rows.len() {
        let Some(place) = cheapest_place(rows) else {
            return;
        };
        let row = &mut rows[place];
        let most = most_of(row.benefit.cap, row.price, left);
        let lump = allowance::allowed_lump(rest, most);
        row.lump = lump;
        row.waiting = false;
        let spent = lump.0 as u64 * row.price;
        left -= spent;
        rest = allowance::after_lump(rest, lump);
    }
}

// Grants rows their lumps: the priced limit is that of the pensions together, and the allowance that of their case.
pub fn grant_of(rows: &mut [PensionRow], allowance: Option<LumpPence>)
    requires small { pension_total rows.old ≤ 50000000 }
    requires priced { All (λ r. 0 < r.price) rows.old }
    ensures taken { map row_in rows.new ≡ turns (length rows.old) (map row_in rows.old) (priced_limit (benefits_in rows.old)) (allowance_by allowance) }
    ensures kept { map before_turn rows.new ≡ map before_turn rows.old }
{
    let sum: u32 = rows.iter().map(|row| row.benefit.pension.0).sum();
    take_turns(rows, 20000000000 * (sum as u64), allowance);
}
