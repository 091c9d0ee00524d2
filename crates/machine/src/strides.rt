ghost use Rattle.std.specs.Prelude.{◌≡◌, MatchResult};
ghost use Rattle.machine.specs.Steps.{to, ends, go};
ghost use Rattle.machine.specs.Strides.{Strided, strided, stride, stride_turned, counted};
ghost use Rattle.machine.specs.Lawful.{stride_laws};

use crate::machines::Machine;
use crate::reasons::Reason;

// Takes k next states of the machine below as one. Strides of strides are strides too.
#[derive(Drop)]
pub struct Stride<M> {
    below: M,
    k: u32,
}

impl<M> Stride<M> {
    // A k of 0 counts as 1, and one above 1,000 as 1,000.
    pub fn new(below: M, k: u32) -> Stride<M>
        ensures { (result.below ≡ below) × (result.k ≡ counted k) }
    {
        Stride {
            below,
            k: k.clamp(SHORTEST, LONGEST),
        }
    }

    pub fn below(&self) -> &M
        ensures { result.now ≡ self.now.below }
    {
        &self.below
    }

    // Gives the machine below back.
    pub fn into_below(self) -> M
        ensures { result ≡ self.below }
    {
        let Stride { below, k: _ } = self;
        below
    }
}

const SHORTEST: u32 = 1;

const LONGEST: u32 = 1_000;

impl<M: Machine> Machine for Stride<M> {
    ghost State = { Strided M.Machine.State };

    ghost state = { λ s. strided s.k (M.Machine.state s.below) };

    ghost next = { stride M.Machine.next };

    ghost turned = { stride_turned M.Machine.turned };

    ghost lawful = { stride_laws M.Machine.lawful };

    // The loop counts steps, and goes through no slice.
    fn step(&mut self) -> Result<(), Reason> {
        for done in 0..self.k {
            step_or_retrace(&mut self.below, done)?;
        }
        Ok(())
    }

    fn turn(&mut self) {
        self.below.turn();
    }
}

// Takes a step, or takes back the last `done` steps and passes the reason on.
fn step_or_retrace<M: Machine>(m: &mut M, done: u32) -> Result<(), Reason>
    ensures { MatchResult result (λ _. M.next (M.state m.old) ≡ to (M.state m.new)) (λ w. (M.next (M.state m.old) ≡ ends w) × ((x : M.State) → go M.next done x ≡ to (M.state m.old) → M.state m.new ≡ x)) }
{
    let outcome = m.step();
    if outcome.is_err() {
        retrace(m, done);
    }
    outcome
}

// Takes back the last n steps: turned, the machine goes the same way back. The loop counts steps, and goes through no slice.
fn retrace<M: Machine>(m: &mut M, n: u32)
    ensures { (x : M.State) → go M.next n x ≡ to (M.state m.old) → M.state m.new ≡ x }
{
    m.turn();
    for i in 0..n {
        let _ = m.step();
    }
    m.turn();
}
