ghost use Rattle.std.specs.Prelude.{◌≡◌};
ghost use Rattle.machine.specs.Steps.{Next, Laws, Took};

use crate::reasons::Reason;

// A reversible machine. In each state it has a next state, or a reason why there is none, and a turned state.
pub trait Machine {
    // What a step looks at, whatever else the machine's memory holds.
    ghost State: { Type 0 };

    ghost state: { Self → State };

    ghost next: { State → Next State };

    ghost turned: { State → State };

    // The proof of the two laws, which each machine hands over.
    ghost lawful: { Laws next turned };

    // Takes the next state, or stays as it stands and returns the reason.
    fn step(&mut self) -> Result<(), Reason>
        ensures { Took next (state self.old) (state self.new) result };

    // Takes the turned state.
    fn turn(&mut self)
        ensures { state self.new ≡ turned (state self.old) };
}
