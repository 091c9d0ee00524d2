ghost use Rattle.std.specs.Prelude.{◌≡◌, Some, refl};
ghost use Rattle.std.specs.Cmp.{po};
ghost use Rattle.std.specs.Ordering.{as_partial_cmp};
ghost use Rattle.syntax.specs.Names.{number, refusal_text};

use std::cmp::Ordering;
use std::fmt;

// The questions that a text is asked, by the numbers of their refusals.
#[derive(Clone, Copy, PartialEq, Eq, PartialOrd, Ord, Debug)]
pub enum Fault {
    TooLong = 1,
    WrongSign = 2,
    LargeNumber = 3,
    PassedLimit = 4,
    Unbound = 5,
    BoundTwice = 6,
    UsedTwice = 7,
    Unused = 8,
    IllTyped = 9,
    NoNumber = 10,
    HighType = 11,
    FewCells = 12,
    ManyIterators = 13,
}

// The public number of a fault.
impl From<Fault> for u8 {
    ghost from_gives = { λ fault n. n ≡ number fault };

    fn from(fault: Fault) -> u8 {
        // `as` is how an enum gives its number.
        fault as u8
    }
}

// Why a text is refused, and the place in it, counted in bytes from 0. Of two refusals the one that goes first is less.
#[derive(Clone, Copy, PartialEq, Eq, Debug)]
pub struct Refusal {
    pub fault: Fault,
    pub place: usize,
}

// By hand: a derived order asks the fields as they lie, and texts are read faster with the fault first in memory.
impl Ord for Refusal {
    ghost use Rattle.syntax.specs.Order.{refusal_cmp, refusal_total, refusal_ties};

    ghost cmp = { refusal_cmp };

    ghost total = { refusal_total };

    ghost matches_partial_cmp = { λ x y. refl };

    ghost matches_eq = { refusal_ties };

    fn cmp(&self, other: &Refusal) -> Ordering {
        (self.place, self.fault).cmp(&(other.place, other.fault))
    }
}

impl PartialOrd for Refusal {
    ghost use Rattle.syntax.specs.Order.{refusal_cmp, refusal_total, refusal_ties};

    ghost partial_cmp = { as_partial_cmp refusal_cmp };

    ghost laws = { po refusal_total refusal_ties };

    fn partial_cmp(&self, other: &Refusal) -> Option<Ordering> {
        Some(self.cmp(other))
    }
}

impl fmt::Display for Refusal {
    ghost output = { λ refusal. Some (refusal_text refusal) };

    fn fmt<W: fmt::Write>(&self, f: &mut fmt::Formatter<W>) -> fmt::Result {
        let number = u8::from(self.fault);
        let place = self.place;
        write!(f, "refused={number} place={place}")
    }
}
