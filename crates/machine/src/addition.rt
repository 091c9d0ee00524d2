ghost use Rattle.machine.specs.Steps.{Took};
ghost use Rattle.machine.specs.Additions.{Standing, standing, passing, onward, mirrored};
ghost use Rattle.machine.specs.Lawful.{addition_laws};

use crate::machines::Machine;
use crate::reasons::Reason;

#[derive(Clone, Copy)]
pub enum Direction {
    Out,
    Home,
}

// The addition machine: out, each step takes one from a and gives it to b; home, the other way.
#[derive(Clone, Copy)]
pub struct Addition {
    pub a: u32,
    pub b: u32,
    pub direction: Direction,
}

impl Machine for Addition {
    ghost State = { Standing };

    ghost state = { λ m. standing m.a m.b m.direction };

    ghost next = { onward };

    ghost turned = { mirrored };

    ghost lawful = { addition_laws };

    // Each way is one call: a closure in its place would be no plainer.
    fn step(&mut self) -> Result<(), Reason> {
        match self.direction {
            Direction::Out => pass_one(&mut self.a, &mut self.b),
            Direction::Home => pass_one(&mut self.b, &mut self.a),
        }
    }

    // The other of two values: there is no library's method for that.
    fn turn(&mut self) {
        self.direction = match self.direction {
            Direction::Out => Direction::Home,
            Direction::Home => Direction::Out,
        };
    }
}

// Takes one from `giver` and gives it to `taker`, or leaves both and says why.
fn pass_one(giver: &mut u32, taker: &mut u32) -> Result<(), Reason>
    ensures { Took passing (giver.old, taker.old) (giver.new, taker.new) result }
{
    if *giver == 0 {
        return Err(Reason::Home);
    }
    if *taker == u32::MAX {
        return Err(Reason::Overflow);
    }
    *giver -= 1;
    *taker += 1;
    Ok(())
}
