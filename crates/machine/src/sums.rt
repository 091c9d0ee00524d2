ghost use Rattle.std.specs.Prelude.{◌≡◌, true, false, pos, negsuc, ◌-ℤ◌, ◌≤ℤ◌, MatchOption, unsigned_abs};
ghost use Rattle.machine.specs.Walks.{room, moved, towards};

use crate::headings::Heading;

const HIGHEST: i64 = 2_000_000_000;

const LOWEST: i64 = -2_000_000_000;

// The sum of a walk: it stays from -2,000,000,000 to 2,000,000,000.
#[derive(Clone, Copy)]
pub struct Sum {
    value: i64,
    ghost low: { negsuc 1999999999 ≤ℤ value },
    ghost high: { value ≤ℤ pos 2000000000 },
}

impl Sum {
    pub fn zero() -> Sum
        ensures { result.value ≡ pos 0 }
    {
        Sum { value: 0 }
    }

    pub fn value(self) -> i64
        ensures { result ≡ self.value }
    {
        self.value
    }

    // The sum after one more step, unless it is at the limit.
    pub fn moved(self, heading: Heading) -> Option<Sum>
        ensures { MatchOption result (room heading self.value ≡ false) (λ s. (room heading self.value ≡ true) × (s.value ≡ moved heading self.value)) }
    {
        // Two ways of an enum, told apart where they differ: no table of steps.
        match heading {
            Heading::Up if self.value < HIGHEST => Some(Sum {
                value: self.value + 1,
            }),
            Heading::Down if self.value > LOWEST => Some(Sum {
                value: self.value - 1,
            }),
            _ => None,
        }
    }

    pub fn heading_to(self, target: Sum) -> Heading
        ensures { result ≡ towards self.value target.value }
    {
        if self.value <= target.value {
            Heading::Up
        } else {
            Heading::Down
        }
    }

    pub fn distance(self, target: Sum) -> u32
        ensures { result ≡ unsigned_abs (target.value -ℤ self.value) }
    {
        // At most 4,000,000,000, by the limits: `try_from` would be an error that never comes.
        target.value.abs_diff(self.value) as u32
    }
}
