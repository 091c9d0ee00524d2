// Lists the walk of a program's token: the text on standard input, a line for each state, and then how the walk ended.
#![tactic(auto)]

ghost use Rattle.std.specs.Prelude.{◌<◌, ◌≤◌, length, IfOk, IfSome};
ghost use Rattle.machine.specs.Standing.{stands};
ghost use Rattle.token_machine.specs.Tokens.{state_of};
ghost use Rattle.lab.specs.Listings.{rest_of};

use anyhow::anyhow;
use input::read_text;
use lab::{Listing, Reserve, line_buffer, open, write_refused};
use machine::Walk;
use network::Builder;
use std::alloc::Global;
use std::io::{BufWriter, Write};
use token::DataCell;

// The length of the next line, which then stands in the buffer, if there is one.
fn next_line(listing: &mut Listing<'_>, line: &mut [u8]) -> anyhow::Result<Option<usize>>
    ensures { IfOk result (λ next. IfSome next (λ n. (n ≤ length line.new) × (length (rest_of listing.new.stage (stands state_of listing.new.walk)) < length (rest_of listing.old.stage (stands state_of listing.old.walk))))) }
{
    listing
        .next_line(line)
        .map_err(|_| anyhow!("a line is longer than the buffer"))
}

// The lines are in lent memory, so they are bytes and no `Display`.
fn write_all_lines<W: Write>(
    out: &mut W,
    listing: &mut Listing<'_>,
    line: &mut [u8],
) -> anyhow::Result<()> {
    while let Some(n) = next_line(listing, line)? {
        out.write_all(&line[0..n])?;
    }
    Ok(())
}

// Lists the walk of the text, or writes why the text is refused.
fn trace<W: Write>(out: &mut W, heap: Global, text: &[u8]) -> anyhow::Result<()> {
    let mut builder = Builder::new(heap)?;
    let mut reserve = Reserve::new(heap)?;
    let mut line = line_buffer(heap)?;
    match open(&mut builder, text, reserve.lend(), DataCell::Question) {
        Ok(token) => write_all_lines(out, &mut Listing::new(Walk::new(token)), &mut line)?,
        Err(refused) => write_refused(out, &refused)?,
    }
    Ok(())
}

fn main(rt: HostRuntime) -> anyhow::Result<()> {
    let text = read_text(rt.alloc(), rt.stdin())?;
    let mut out = BufWriter::new(rt.alloc(), rt.stdout())?;
    trace(&mut out, rt.alloc(), &text)?;
    out.flush()?;
    Ok(())
}

#[cfg(test)]
mod tests {
    use super::*;

    // The stored run lists a walk.
    #[test]
    fn a_refused_text_gives_its_refusal_alone(rt: HostRuntime) {
        let heap = rt.alloc();
        let mut out = Vec::new(heap);
        assert!(rt; trace(&mut out, heap, b"(3 4)").is_ok());
        assert!(rt; out.as_slice() == b"refused=9 place=0\n".as_slice());
    }
}
