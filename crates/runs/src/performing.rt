ghost use Rattle.std.specs.Prelude.{◌≡◌, ◌+◌, ◌<◌, ◌≤◌, map, length, IfOk, vec_len, vec_capacity, MatchResult};
ghost use Rattle.machine.specs.Standing.{stands};
ghost use Rattle.runs.specs.Readings.{Reads, meant, Ready, AllReady};
ghost use Rattle.runs.specs.Runs.{Did, Performed, RunLaw, latest_first};
ghost use Rattle.machine.specs.declared.walks.Probe.{Probe as Taken};

use crate::calls::{Answer, Call};
use crate::readings::Readable;
use machine::{Machine, Probe, Walk};
use std::alloc::{AllocError, Global};

// Performs the calls one after another and hands back each answer. Bring-back and keep end the latest open
// probe, and what is open at the end is kept. All room is made before anything moves.
pub fn perform<M: Readable>(
    walk: &mut Walk<M>,
    calls: &[Call<M::Query>],
    heap: Global,
) -> Result<Vec<Answer<M::Reply>>, AllocError>
    ensures performed { MatchResult result (λ v. Performed M.Machine.next M.Machine.turned (Reads M.Machine.state M.reading) (stands M.Machine.state walk.old) calls.now (map (meant M.told) v.items) (stands M.Machine.state walk.new)) (λ _. walk.new ≡ walk.old) }
    ensures law { RunLaw M.Machine.next M.Machine.turned (Reads M.Machine.state M.reading) }
{
    let rooms = rooms_for::<M>(calls, heap)?;
    let mut answers = Vec::with_capacity(heap, calls.len())?;
    let mut probes = Vec::with_capacity(heap, calls.len())?;
    for (call, room) in calls.iter().zip(rooms) {
        let answer = perform_one(walk, call, &mut probes, room);
        answers.push_reserved(answer);
    }
    keep_all(walk, probes);
    Ok(answers)
}

// Keeps the probes that are open at the end.
fn keep_all<M: Machine>(walk: &Walk<M>, mut probes: Vec<Probe>)
    ensures { walk.exit.now ≡ walk.entry.now }
{
    while let Some(probe) = probes.pop() {
        walk.keep(probe);
    }
    probes.destroy_empty();
}

// Performs one call, with the open probes on a stack and the room for a reading.
fn perform_one<M: Readable>(
    walk: &mut Walk<M>,
    call: &Call<M::Query>,
    probes: &mut Vec<Probe>,
    room: Option<M::Room>,
) -> Answer<M::Reply>
    requires ready { Ready M.fits call.now room }
    requires space { vec_len probes.old < vec_capacity probes.old }
    ensures did { Did M.Machine.next M.Machine.turned (Reads M.Machine.state M.reading) (stands M.Machine.state walk.old) (latest_first (λ (p : Taken). p.sum.value) probes.old.items) call.now (meant M.told result) (stands M.Machine.state walk.new) (latest_first (λ (p : Taken). p.sum.value) probes.new.items) }
    ensures space { (vec_len probes.new ≤ vec_len probes.old + 1) × (vec_capacity probes.new ≡ vec_capacity probes.old) }
{
    match call {
        Call::Forward(k) => Answer::Moved(walk.forward(*k)),
        Call::Back(k) => Answer::Moved(walk.back(*k)),
        Call::Sum => Answer::Sum(walk.sum()),
        Call::Probe => {
            probes.push_reserved(walk.probe());
            Answer::Probed
        }
        Call::BringBack => match probes.pop() {
            Some(probe) => Answer::Moved(walk.bring_back(probe)),
            None => Answer::NoProbe,
        },
        Call::Keep => match probes.pop() {
            Some(probe) => {
                walk.keep(probe);
                Answer::Kept
            }
            None => Answer::NoProbe,
        },
        Call::Read(query) => match room {
            Some(room) => Answer::Read(walk.machine().reply(walk.sum(), query, room)),
            None => unreachable(),
        },
    }
}

// Makes the room for every reading among the calls.
fn rooms_for<M: Readable>(
    calls: &[Call<M::Query>],
    heap: Global,
) -> Result<Vec<Option<M::Room>>, AllocError>
    ensures { IfOk result (λ v. (vec_len v ≡ length calls.now) × AllReady M.fits calls.now v.items) }
{
    let mut rooms = Vec::new(heap);
    for call in calls {
        rooms.push(room_for::<M>(call, heap)?)?;
    }
    Ok(rooms)
}

fn room_for<M: Readable>(call: &Call<M::Query>, heap: Global) -> Result<Option<M::Room>, AllocError>
    ensures { IfOk result (Ready M.fits call.now) }
{
    match call {
        Call::Read(query) => Ok(Some(M::room(query, heap)?)),
        _ => Ok(None),
    }
}
