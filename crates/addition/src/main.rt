// Walks the addition machine from 3/2 there and back, and prints each action.
#![tactic(auto)]

use machine::{Addition, Direction, Grant, Stride, Walk, out_and_back};
use runs::{Answer, Call, perform};
use std::io;

fn main(rt: HostRuntime) -> io::Result<()> {
    println!(rt; "addition machine, opened out at 3/2")?;
    let mut walk = Walk::new(Addition {
        a: 3,
        b: 2,
        direction: Direction::Out,
    });
    act(&rt, &mut walk, &[Call::Sum, Call::Read(())])?;
    step_by_step(&rt, &mut walk)?;
    probes(&rt, &mut walk)?;
    strides(&rt, walk.into_machine())?;
    whole(&rt)
}

// The runtime and the walk are handed on to each part of the program.

// Forward until the machine is home, and back until it is home the other way.
fn step_by_step(rt: &HostRuntime, walk: &mut Walk<Addition>) -> io::Result<()> {
    for _ in 0..4 {
        act(rt, walk, &[Call::Forward(1), Call::Sum, Call::Read(())])?;
    }
    for _ in 0..6 {
        act(rt, walk, &[Call::Back(1), Call::Sum, Call::Read(())])?;
    }
    Ok(())
}

// One probe is brought back and another is kept; then none is open.
fn probes(rt: &HostRuntime, walk: &mut Walk<Addition>) -> io::Result<()> {
    act(
        rt,
        walk,
        &[
            Call::Probe,
            Call::Forward(10),
            Call::Read(()),
            Call::BringBack,
            Call::Sum,
            Call::Read(()),
        ],
    )?;
    act(
        rt,
        walk,
        &[Call::Probe, Call::Forward(2), Call::Keep, Call::Read(())],
    )?;
    act(rt, walk, &[Call::BringBack, Call::Forward(1_000_001)])
}

fn strides(rt: &HostRuntime, machine: Addition) -> io::Result<()> {
    println!(rt; "by strides of 2")?;
    let mut walk = Walk::new(Stride::new(machine, 2));
    tell(rt, "forward 10", walk.forward(10))?;
    println!(rt; "sum: {}", walk.sum())?;
    let below = walk.machine().below();
    println!(rt; "read: {}/{}", below.a, below.b)
}

// The whole case in one call each way.
fn whole(rt: &HostRuntime) -> io::Result<()> {
    println!(rt; "opened out at 3/2 once more")?;
    let (forward, back, sum) = out_and_back();
    tell(rt, "forward 10", forward)?;
    tell(rt, "back 10", back)?;
    println!(rt; "sum: {sum}")
}

// Performs the calls and prints each with its answer.
fn act(rt: &HostRuntime, walk: &mut Walk<Addition>, calls: &[Call<()>]) -> io::Result<()> {
    let answers = perform(walk, calls, rt.alloc())?;
    for (call, answer) in calls.iter().zip(answers.iter()) {
        show(rt, call, answer)?;
    }
    Ok(())
}

// Some words here are others than in `walk`, which writes to a writer and not to the runtime: what is alike in both is too little for a
// function of a library.
fn show(rt: &HostRuntime, call: &Call<()>, answer: &Answer<(u32, u32)>) -> io::Result<()> {
    match call {
        Call::Forward(k) => print!(rt; "forward {k}: ")?,
        Call::Back(k) => print!(rt; "back {k}: ")?,
        Call::Sum => print!(rt; "sum: ")?,
        Call::Probe => print!(rt; "probe: ")?,
        Call::BringBack => print!(rt; "bring back: ")?,
        Call::Keep => print!(rt; "keep: ")?,
        Call::Read(_) => print!(rt; "read: ")?,
    }
    match answer {
        Answer::Moved(grant) => granted(rt, *grant),
        Answer::Sum(sum) => println!(rt; "{sum}"),
        Answer::Probed => println!(rt; "taken"),
        Answer::Kept => println!(rt; "kept"),
        Answer::NoProbe => println!(rt; "no probe is open"),
        Answer::Read((a, b)) => println!(rt; "{a}/{b}"),
    }
}

fn tell(rt: &HostRuntime, call: &str, grant: Grant) -> io::Result<()> {
    print!(rt; "{call}: ")?;
    granted(rt, grant)
}

// As in `show`: too little is alike for a library.
fn granted(rt: &HostRuntime, grant: Grant) -> io::Result<()> {
    match grant {
        (steps, None) => println!(rt; "granted {steps}"),
        (steps, Some(reason)) => println!(rt; "granted {steps}, stopped by {reason}"),
    }
}
