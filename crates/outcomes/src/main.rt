// Tells how many programs end: texts on standard input, one to a line, and for each the last line of its listing, or its refusal.
#![tactic(auto)]

ghost use Rattle.std.specs.Prelude.{◌≡◌, ◌≢◌, ℕ, ◌<◌, ◌≤◌, length, slice_index, OnOk};
ghost use Rattle.outcomes.specs.Lines.{Ends, Told};

use anyhow::anyhow;
use input::read_up_to;
use lab::{Reserve, line_buffer, open, show_outcome, show_text};
use machine::{Reason, Walk};
use network::Builder;
use std::io::{BufWriter, Write};
use token::DataCell;

// The most bytes that are read.
const MOST: u64 = 16_777_216;

// Where the first line ends: at a line feed, or at the end.
fn line_end(texts: &[u8]) -> usize
    ensures within { result ≤ length texts.now }
    ensures before { (k : ℕ) → k < result → slice_index texts.now k ≢ 10 }
    ensures found { result < length texts.now → slice_index texts.now result ≡ 10 }
{
    texts
        .iter()
        .position(|b| *b == b'\n')
        .unwrap_or(texts.len())
}

// Shows how the program of one text ends, or why the text is refused, at the front of the line, and gives its length.
fn show_end(
    builder: &mut Builder,
    reserve: &mut Reserve,
    text: &[u8],
    line: &mut [u8],
) -> Result<usize, Reason>
    ensures { Ends text.now reserve.old line.old line.new result }
{
    match open(builder, text, reserve.lend(), DataCell::Question) {
        Ok(token) => show_outcome(&mut Walk::new(token), line),
        Err(refused) => show_text(&refused, line),
    }
}

// Tells how the program of one text ends, a whole line at once. The line is in lent memory, so it is bytes and no `Display`.
fn tell<W: Write>(
    out: &mut W,
    builder: &mut Builder,
    reserve: &mut Reserve,
    text: &[u8],
    line: &mut [u8],
) -> anyhow::Result<()>
    ensures { OnOk result (Told text.now reserve.old (length line.new) (W.contents out.old) (W.contents out.new)) }
{
    let n = show_end(builder, reserve, text, line).map_err(|_| anyhow!(
        "a line is longer than the buffer"
    ))?;
    out.write_all(&line[0..n])?;
    Ok(())
}

// Lines are bytes, as `tell` says.
fn tell_all<W: Write>(out: &mut W, rt: &HostRuntime, texts: &[u8]) -> anyhow::Result<()> {
    let heap = rt.alloc();
    let mut builder = Builder::new(heap)?;
    let mut reserve = Reserve::new(heap)?;
    let mut line = line_buffer(heap)?;
    let mut rest = texts;
    while !rest.is_empty() {
        let end = line_end(rest);
        tell(out, &mut builder, &mut reserve, &rest[0..end], &mut line)?;
        rest = match &rest[end..] {
            [_, more @ ..] => more,
            [] => &[],
        };
    }
    Ok(())
}

fn main(rt: HostRuntime) -> anyhow::Result<()> {
    let texts = read_up_to(rt.alloc(), rt.stdin(), MOST)?;
    let mut out = BufWriter::new(rt.alloc(), rt.stdout())?;
    tell_all(&mut out, &rt, &texts)?;
    out.flush()?;
    Ok(())
}
