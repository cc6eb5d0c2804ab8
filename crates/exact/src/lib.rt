// Sums that are exact beyond 64 bits.
#![tactic(auto)]

ghost use Rattle.std.specs.Prelude.{◌≡◌, ◌<◌};
ghost use Rattle.exact.specs.Adding.{Spare, Added};
ghost use Rattle.exact.specs.Exact.{value_of};

use std::fmt;

// high × 10^18 + low: in print the low word takes 18 digits behind a high word that is not 0.
#[derive(Clone, Copy)]
pub struct Total {
    pub high: u64,
    pub low: u64,
}

// All digits: 18 of the low word behind a high word that is not 0.
impl fmt::Display for Total {
    fn fmt<W: fmt::Write>(&self, f: &mut fmt::Formatter<W>) -> fmt::Result {
        if self.high == 0 {
            return write!(f, "{}", self.low);
        }
        write!(f, "{}{:018}", self.high, self.low % 1000000000000000000)
    }
}

pub fn nothing() -> Total
    ensures result_value { value_of result ≡ 0 }
    ensures spare { Spare result 18446744073709551615 }
{
    Total { high: 0, low: 0 }
}

// Each number adds at most one to the high word, so how many there are bounds it.
pub fn add(t: Total, x: u64) -> Total
    requires spare { Spare t 1 }
    requires x_bound { x < 1000000000000000000 }
    ensures { Added t x result }
{
    let sum = t.low + x;
    if sum < 1000000000000000000 {
        return Total {
            high: t.high,
            low: sum,
        };
    }
    Total {
        high: t.high + 1,
        low: sum - 1000000000000000000,
    }
}
