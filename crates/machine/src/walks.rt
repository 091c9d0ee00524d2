ghost use Rattle.std.specs.Prelude.{◌≡◌, pos};
ghost use Rattle.machine.specs.Steps.{Took};
ghost use Rattle.machine.specs.Walks.{may, Granted, Goes, Asked, Brought};
ghost use Rattle.machine.specs.Standing.{stands};
ghost use Rattle.machine.specs.declared.headings.Heading.TheVariants.{Up, Down};

use crate::headings::Heading;
use crate::machines::Machine;
use crate::reasons::Reason;
use crate::sums::Sum;

// The steps granted, and the reason why not all that were wanted: absent exactly if all were.
pub type Grant = (u32, Option<Reason>);

// The most steps that forward and back take in one call.
const MOST: u32 = 1_000_000;

// A walk over a machine: its sum is the steps granted forward less those granted back.
#[derive(Drop)]
pub struct Walk<M> {
    machine: M,
    sum: Sum,
}

// Carries the sum at which it was taken. It is no `Drop`: it must be spent, by `bring_back` or by `keep`.
pub struct Probe {
    sum: Sum,
}

impl<M: Machine> Walk<M> {
    // Opens a walk in whatever state the machine is in.
    pub fn new(machine: M) -> Walk<M>
        ensures { (result.machine ≡ machine) × (result.sum.value ≡ pos 0) }
    {
        Walk {
            machine,
            sum: Sum::zero(),
        }
    }

    pub fn machine(&self) -> &M
        ensures { result.now ≡ self.now.machine }
    {
        &self.machine
    }

    // Ends the walk and gives its machine back.
    pub fn into_machine(self) -> M
        ensures { result ≡ self.machine }
    {
        let Walk { machine, sum: _ } = self;
        machine
    }

    pub fn sum(&self) -> i64
        ensures { result ≡ self.now.sum.value }
    {
        self.sum.value()
    }

    // Takes k steps, or as many as may be taken.
    pub fn forward(&mut self, k: u32) -> Grant
        ensures { Asked Up M.next M.turned k (stands M.state self.old) (stands M.state self.new) result }
    {
        self.ask(Heading::Up, k)
    }

    // Does the same on the turned machine, and turns it again.
    pub fn back(&mut self, k: u32) -> Grant
        ensures { Asked Down M.next M.turned k (stands M.state self.old) (stands M.state self.new) result }
    {
        self.ask(Heading::Down, k)
    }

    // Takes a probe, which carries the sum.
    pub fn probe(&self) -> Probe
        ensures { result.sum.value ≡ self.now.sum.value }
    {
        Probe { sum: self.sum }
    }

    // Ends the probe and moves until the sum is the probe's, however far that is.
    pub fn bring_back(&mut self, probe: Probe) -> Grant
        ensures { Brought M.next M.turned probe.sum.value (stands M.state self.old) (stands M.state self.new) result }
    {
        let Probe { sum } = probe;
        self.travel(self.sum.heading_to(sum), self.sum.distance(sum))
    }

    // Ends the probe and moves nothing.
    pub fn keep(&self, probe: Probe)
        ensures { self.exit.now ≡ self.entry.now }
    {
        let Probe { sum: _ } = probe;
    }

    // The heading and the number of steps go from here to the loop; a struct of the two would be taken apart again.
    fn ask(&mut self, heading: Heading, k: u32) -> Grant
        ensures { Asked heading M.next M.turned k (stands M.state self.old) (stands M.state self.new) result }
    {
        if k > MOST {
            return (0, Some(Reason::TooManySteps));
        }
        self.travel(heading, k)
    }

    // k steps up, or down by the turned machine: two ways of an enum, and no table of steps.
    fn travel(&mut self, heading: Heading, k: u32) -> Grant
        ensures { Goes heading M.next M.turned k (stands M.state self.old) (stands M.state self.new) result }
    {
        match heading {
            Heading::Up => self.take_steps(heading, k),
            Heading::Down => {
                self.machine.turn();
                let grant = self.take_steps(heading, k);
                self.machine.turn();
                grant
            }
        }
    }

    // The one loop of forward, back and bring-back. It counts steps, and goes through no slice.
    fn take_steps(&mut self, heading: Heading, k: u32) -> Grant
        ensures { Granted (may heading M.next) k (stands M.state self.old) (stands M.state self.new) result }
    {
        for granted in 0..k {
            if let Err(reason) = self.take_step(heading) {
                return (granted, Some(reason));
            }
        }
        (k, None)
    }

    // One step of the machine, if the walk's limit and the machine let it be taken.
    fn take_step(&mut self, heading: Heading) -> Result<(), Reason>
        ensures { Took (may heading M.next) (stands M.state self.old) (stands M.state self.new) result }
    {
        let sum = self.sum.moved(heading).ok_or(Reason::WalkLimit)?;
        self.machine.step()?;
        self.sum = sum;
        Ok(())
    }
}
