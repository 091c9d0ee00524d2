ghost use Rattle.std.specs.Prelude.{◌≡◌, Some, decimal};
ghost use Rattle.machine.specs.Reasons.{number_of};

use std::fmt;

// Why a machine, a stride or a walk does not go on, or a reading cannot be given.
#[derive(Clone, Copy, PartialEq, Eq, Debug)]
pub enum Reason {
    // The machine is at home.
    Home = 21,
    // No row applies.
    NoRow = 22,
    // Two ports are not linked to each other.
    Unlinked = 23,
    // A stack has no cell left.
    Full = 24,
    // A number would pass 4,294,967,295.
    Overflow = 25,
    // The walk's sum is at its limit.
    WalkLimit = 26,
    // There is no number to read.
    NoNumber = 27,
    // More than 1,000,000 steps are wanted.
    TooManySteps = 28,
    // The buffer is too short.
    ShortBuffer = 29,
}

// The public number of a reason.
impl From<Reason> for u8 {
    ghost from_gives = { λ reason number. number ≡ number_of reason };

    fn from(reason: Reason) -> u8 {
        // `as` is how an enum gives its number.
        reason as u8
    }
}

// A reason is shown as its number.
impl fmt::Display for Reason {
    ghost output = { λ reason. Some (decimal (number_of reason)) };

    fn fmt<W: fmt::Write>(&self, f: &mut fmt::Formatter<W>) -> fmt::Result {
        write!(f, "{}", u8::from(*self))
    }
}
