ghost use Rattle.std.specs.Prelude.{◌≡◌, map, MatchResult};
ghost use Rattle.machine.specs.Standing.{stands};
ghost use Rattle.runs.specs.Readings.{Reads, meant};
ghost use Rattle.runs.specs.Runs.{Performed};
ghost use Rattle.lab.specs.Whole.{WholeWalks};

use machine::Walk;
use runs::{Answer, Call, Readable};
use std::alloc::{AllocError, Global};

// Performs a list of calls on a walk over any lawful machine that can be read, and hands back each answer.
// It may be called as often as one likes; all room for answers is made before anything moves.
pub fn perform<M: Readable>(
    walk: &mut Walk<M>,
    calls: &[Call<M::Query>],
    heap: Global,
) -> Result<Vec<Answer<M::Reply>>, AllocError>
    ensures performed { MatchResult result (λ v. Performed M.Machine.next M.Machine.turned (Reads M.Machine.state M.reading) (stands M.Machine.state walk.old) calls.now (map (meant M.told) v.items) (stands M.Machine.state walk.new)) (λ _. walk.new ≡ walk.old) }
    ensures whole { WholeWalks M.Machine.next M.Machine.turned (Reads M.Machine.state M.reading) }
{
    runs::perform(walk, calls, heap)
}
