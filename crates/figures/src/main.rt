// Worked examples of the source documents and of the allowance, and refusals, run through the engine, with what each document
// prints, or the rule gives, beside them.
#![tactic(auto)]

use calendar::Date;
use factors::money::{LumpPence, YearlyPence};
use refusals::number_of;
use std::{fmt, io};
use trivial_commutation::YearlyAmount;

// A name, a case line, and what the source or the rule gives for it.
type Example = (&'static str, &'static [u8], &'static str);

// Document 001 finds its Examples 2 and 3 within 268,275 pounds; they commence before the day from which that limit holds.
const LUMP_SUMS: [Example; 4] = [
    (
        "Document 000, example 2",
        b"0000000207AC080F07E0080F0101002DC6C007C2080F07E0080F000866000000000000",
        "printed: 152,662",
    ),
    (
        "Document 000, example 3",
        b"0000000307AD061E07E00A0F01020030D40007C1070107DF070100087D0728034101F4",
        "printed: 163,267",
    ),
    (
        "Document 001, example 2",
        b"0000000807B30C0F07E70C0F0101002DC6C007C90C0F07E70C0F000A1E000000000000",
        "printed: 159,058, within 268,275",
    ),
    (
        "Document 001, example 3",
        b"0000000907B4061E07E70A0F01020030D40007C8010107E60101000A4408E8036803E8",
        "printed: 170,151, within 268,275",
    ),
];

const ALLOWANCES: [Example; 5] = [
    (
        "60,000 pounds a year from 6 April 2024",
        b"0000000A07B0060F07E804060101005B8D8007C9060107E706010009C4000000000000",
        "allowance: 268,275.00",
    ),
    (
        "  with 200,000 pounds of it used",
        b"0000000A07B0060F07E804060101005B8D8007C9060107E706010009C400000000000001312D00",
        "left: 68,275.00",
    ),
    (
        "  with all of it used",
        b"0000000A07B0060F07E804060101005B8D8007C9060107E706010009C400000000000001995AEC",
        "left: 0",
    ),
    (
        "  with more than it used",
        b"0000000A07B0060F07E804060101005B8D8007C9060107E706010009C4000000000000FFFFFFFF",
        "left: 0",
    ),
    (
        "  from 5 April 2024, with more than it used",
        b"0000000A07B0060F07E804050101005B8D8007C9060107E706010009C4000000000000FFFFFFFF",
        "no allowance: 20 x 60,000 / 3.8",
    ),
];

// A month is complete on the last day of the later date's month too: on 28 February of a common year one born on a 29 February is a
// month older than by the day alone, which takes a refusal away or brings one.
const REFUSALS: [Example; 11] = [
    ("Empty line", b"", "office: 2"),
    (
        "Born on 29 February 1900",
        b"00000004076C021D07A303010101002DC6C00785030107A303010009C4000000000000",
        "office: 3",
    ),
    (
        "Age 635 months, kind 1, F1 0",
        b"0000000507B2060F07E7051F0101002DC6C007C9060107E7051F000000000000000000",
        "office: 9",
    ),
    (
        "Kind 3 from 28 February 2023, born on 29 February 1968",
        b"0000000B07B0021D07E7021C0103000DBBA007DF040107E7021C000000000000000000",
        "660 months: passes",
    ),
    (
        "Kind 2 on the same dates",
        b"0000000B07B0021D07E7021C01020030D40007C6040107E40401000A4408E8036803E8",
        "660 months: 8",
    ),
    (
        "F1 0 from 28 February 2025, born on 29 February 1972",
        b"0000000C07B4021D07E9021C0101002DC6C007CB040107E9021C000000000000000000",
        "636 months: passes",
    ),
    (
        "F1 0 from 28 February 2025, born on 29 February 1952",
        b"0000000D07A0021D07E9021C0101002DC6C007B7040107D50401000000000000000000",
        "876 months: 9",
    ),
    (
        "From 28 February 2022, born on 29 February 2004",
        b"0000000E07D4021D07E6021C0101002DC6C007E6010107E6021C0009C4000000000000",
        "216 months: passes",
    ),
    (
        "From 28 February 2100, born on 29 February 2000",
        b"0000000F07D0021D0834021C0101002DC6C007E40401080204010009C4000000000000",
        "1,200 months: 5",
    ),
    (
        "Pensions of 50,000,000 together",
        b"0000000607B0060107E706010201017D784007C9060107E706010009C400000000000003017D784007DF040107E70601000000000000000000",
        "office: passes",
    ),
    (
        "Pensions of 50,000,001 together",
        b"0000000607B0060107E706010201017D784007C9060107E706010009C400000000000003017D784107DF040107E70601000000000000000000",
        "office: 10",
    ),
];

// Pence, which are printed as pounds with two decimals.
#[derive(Clone, Copy)]
struct Pounds(u32);

impl fmt::Display for Pounds {
    fn fmt<W: fmt::Write>(&self, f: &mut fmt::Formatter<W>) -> fmt::Result {
        write!(f, "{}.{:02}", self.0 / 100, self.0 % 100)
    }
}

fn early_retirement(rt: &impl Print) -> io::Result<()> {
    let birth = Date {
        year: 1970,
        month: 11,
        day: 1,
    };
    let retirement = Date {
        year: 2025,
        month: 11,
        day: 1,
    };
    let months = calendar::months_to_sixtieth_birthday(birth, retirement);
    println!(rt;
        "Document 003, example 1: {months} months to the 60th birthday (printed: 5 years and 0 months)"
    )?;
    for (pension, stated, printed) in [("earned", 900000, "6,975"), ("added", 25000, "193.75")] {
        let paid = factors::early_payment::reduced_pension(YearlyPence(stated), months);
        let (stated, paid) = (Pounds(stated), Pounds(paid.0));
        println!(rt;
            "  {pension} pension {stated} pounds a year, reduced to {paid} (printed: {printed})"
        )?;
    }
    Ok(())
}

// The total lump of a case line, 0 for a refused one.
fn total_of(line: &[u8]) -> LumpPence {
    match split::quote(line) {
        Ok(granted) => granted.total,
        Err(_) => LumpPence(0),
    }
}

// The total lump of each case line, cut down to the pound.
fn lump_sums(rt: &impl Print) -> io::Result<()> {
    for (name, line, given) in LUMP_SUMS {
        let pounds = total_of(line).0 / 100;
        println!(rt; "{name}: {pounds} pounds tax-free at most ({given})")?;
    }
    Ok(())
}

// The total lump of each case line, to the penny.
fn allowances(rt: &impl Print) -> io::Result<()> {
    for (name, line, given) in ALLOWANCES {
        let total = Pounds(total_of(line).0);
        println!(rt; "{name}: {total} pounds ({given})")?;
    }
    Ok(())
}

// The trivial commutation of a small pension in payment, with the survivor's pension.
fn commutation(scheme: u32, age: u32, member: YearlyAmount, survivor: YearlyAmount) -> Pounds {
    let commuted = trivial_commutation::commute(scheme, age, member, survivor);
    Pounds(commuted.unwrap_or(LumpPence(0)).0)
}

fn small_pensions(rt: &impl Print) -> io::Result<()> {
    let first = commutation(1987, 68, YearlyAmount(65000), YearlyAmount(32500));
    println!(rt; "Document 004, example 1: {first} pounds for a small pension (printed: 10,595)")?;
    let second = commutation(2006, 65, YearlyAmount(100000), YearlyAmount(50000));
    println!(rt;
        "Document 004, example 2: {second} pounds for a small pension (printed: 17,950.00)"
    )
}

fn refusals(rt: &impl Print) -> io::Result<()> {
    for (name, line, given) in REFUSALS {
        let refusal = number_of(&split::quote(line));
        println!(rt; "{name}: refusal {refusal} ({given})")?;
    }
    Ok(())
}

fn main(rt: HostRuntime) -> io::Result<()> {
    early_retirement(&rt)?;
    lump_sums(&rt)?;
    allowances(&rt)?;
    small_pensions(&rt)?;
    refusals(&rt)
}
