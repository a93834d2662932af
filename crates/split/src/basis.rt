// What the head of a case gives for each of its pensions.
ghost use Rattle.std.specs.Prelude.{◌≡◌};
ghost use Rattle.factors.specs.Commutation.{table1};
ghost use Rattle.split.specs.Refusal.{age_of};
ghost use Rattle.split.specs.Working.{paid_thousandths};

use crate::case::Head;

// A head with its age, Table 1's factor at that age, and how many thousandths of a 2015 pension are paid.
#[derive(Clone, Copy)]
pub struct Basis {
    pub head: Head,
    pub age: u32,
    pub found: u16,
    pub paid: u16,
    ghost aged: { age ≡ age_of head },
    ghost looked_up: { found ≡ table1 (age_of head) },
    ghost payable: { paid ≡ paid_thousandths head },
}

// The thousandths of a 2015 pension that are paid: Table A's before age 60, and all from then on.
fn paid_thousandths(head: Head, age: u32) -> u16
    requires { age ≡ age_of head }
    ensures { result ≡ paid_thousandths head }
{
    if age < 720 {
        let months = calendar::months_to_sixtieth_birthday(head.birth, head.commencement);
        return factors::early_payment::early_payment_factor(months);
    }
    1000
}

impl Basis {
    pub fn of(head: Head) -> Basis
        ensures { result.head ≡ head }
    {
        let age = calendar::months_between(head.birth, head.commencement);
        let found = factors::commutation::table_factor(age);
        let paid = paid_thousandths(head, age);
        Basis {
            head,
            age,
            found,
            paid,
        }
    }
}
