// Walks the token of a program: the text on standard input, the calls as arguments, each with its answer on a line.
#![tactic(auto)]

mod plan;

use input::read_text;
use lab::{Reserve, open, perform, write_refused};
use machine::{Grant, Walk};
use network::Builder;
use plan::{NoPlan, Plan, read_words};
use runs::{Answer, Call};
use std::alloc::Global;
use std::io::{BufWriter, Read, Write};
use std::{env, io};
use token_machine::{Query, Reply, Token};

// Some words here are others than in `addition`; a grant is a tuple and a line is bytes, so neither has a `Display`.

fn write_call<W: Write>(out: &mut W, call: &Call<Query>) -> io::Result<()> {
    match call {
        Call::Forward(k) => write!(out, "forward {k}: "),
        Call::Back(k) => write!(out, "back {k}: "),
        Call::Sum => write!(out, "sum: "),
        Call::Probe => write!(out, "probe: "),
        Call::BringBack => write!(out, "bring-back: "),
        Call::Keep => write!(out, "keep: "),
        Call::Read(Query::Show(_)) => write!(out, "show: "),
        Call::Read(Query::Number) => write!(out, "number: "),
    }
}

fn write_grant<W: Write>(out: &mut W, grant: Grant) -> io::Result<()> {
    match grant {
        (steps, None) => writeln!(out, "granted {steps}"),
        (steps, Some(reason)) => writeln!(out, "granted {steps}, stopped by {reason}"),
    }
}

fn write_reply<W: Write>(out: &mut W, reply: &Reply) -> io::Result<()> {
    match reply {
        Reply::Shown(Ok(n), line) => match line.as_slice().get(0..*n) {
            Some(line) => out.write_all(line),
            None => writeln!(out),
        },
        Reply::Number(Ok(n)) => writeln!(out, "{n}"),
        Reply::Shown(Err(reason), _) | Reply::Number(Err(reason)) => {
            writeln!(out, "none, because of {reason}")
        }
    }
}

fn write_answer<W: Write>(out: &mut W, answer: &Answer<Reply>) -> io::Result<()> {
    match answer {
        Answer::Moved(grant) => write_grant(out, *grant),
        Answer::Sum(sum) => writeln!(out, "{sum}"),
        Answer::Probed => writeln!(out, "taken"),
        Answer::Kept => writeln!(out, "kept"),
        Answer::NoProbe => writeln!(out, "no probe is open"),
        Answer::Read(reply) => write_reply(out, reply),
    }
}

// Performs all the calls, and then writes each with its answer. Where to write and the heap are the program's surroundings, handed on.
fn act<W: Write>(
    out: &mut W,
    heap: Global,
    walk: &mut Walk<Token<'_>>,
    calls: &[Call<Query>],
) -> io::Result<()> {
    let answers = perform(walk, calls, heap)?;
    for (call, answer) in calls.iter().zip(answers.iter()) {
        write_call(out, call)?;
        write_answer(out, answer)?;
    }
    Ok(())
}

// Walks the token of the text as planned, or writes why the text is refused.
fn follow<W: Write>(out: &mut W, heap: Global, text: &[u8], plan: &Plan) -> anyhow::Result<()> {
    let mut builder = Builder::new(heap)?;
    let mut reserve = Reserve::new(heap)?;
    match open(&mut builder, text, reserve.lend(), plan.first) {
        Ok(token) => act(out, heap, &mut Walk::new(token), &plan.calls)?,
        Err(refused) => write_refused(out, &refused)?,
    }
    Ok(())
}

// Does what the words ask for with the text that is put in, or names the word that is not known.
fn obey<W: Write, R: Read + Drop>(
    out: &mut W,
    heap: Global,
    words: &[String],
    input: R,
) -> anyhow::Result<()> {
    match read_words(words, heap) {
        Ok(plan) => follow(out, heap, &read_text(heap, input)?, &plan)?,
        Err(NoPlan::Memory(error)) => return Err(error.into()),
        Err(told) => writeln!(out, "{told}")?,
    }
    Ok(())
}

fn arguments(rt: &HostRuntime) -> anyhow::Result<Vec<String>> {
    Ok(env::args(rt)?.skip(1).collect(rt.alloc())?)
}

fn main(rt: HostRuntime) -> anyhow::Result<()> {
    let words = arguments(&rt)?;
    let mut out = BufWriter::new(rt.alloc(), rt.stdout())?;
    obey(&mut out, rt.alloc(), &words, rt.stdin())?;
    out.flush()?;
    Ok(())
}

#[cfg(test)]
mod tests;
