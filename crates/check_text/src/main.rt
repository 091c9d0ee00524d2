// Checks a text on standard input, and prints its counts, or why it is refused.
#![tactic(auto)]

ghost use Rattle.std.specs.Prelude.{◌≡◌, IfOk, string_bytes};
ghost use Rattle.check_text.specs.Lines.{Examined, Answer};

use grammar::accept;
use input::read_text;
use language::counts::Facts;
use language::workspace::Workspace;
use std::alloc::{AllocError, Global};
use syntax::refusal::Refusal;

// The counts of a text's program. The workspace serves many texts, so the two are no struct.
fn examine(workspace: &mut Workspace, text: &[u8]) -> Result<Facts, Refusal>
    ensures { Examined text.now result }
{
    let program = accept(text, workspace)?;
    Ok(program.facts)
}

// The line that answers a text.
fn answer(heap: Global, workspace: &mut Workspace, text: &[u8]) -> Result<String, AllocError>
    ensures { IfOk result (λ s. Answer text.now (string_bytes s)) }
{
    match examine(workspace, text) {
        Ok(facts) => format!(in heap; "{facts}"),
        Err(refusal) => format!(in heap; "{refusal}"),
    }
}

fn main(rt: HostRuntime) -> anyhow::Result<()> {
    let heap = rt.alloc();
    let mut workspace = Workspace::new(heap)?;
    let text = read_text(heap, rt.stdin())?;
    let line = answer(heap, &mut workspace, &text)?;
    println!(rt; "{line}")?;
    Ok(())
}

#[cfg(test)]
mod tests;
