// What the programs read of their input.
#![tactic(auto)]

ghost use Rattle.std.specs.Prelude.{◌≡◌, take, IfOk, IfSome};

use std::alloc::Global;
use std::io::Read;

// One byte more than a text may have: enough to see that it is too long.
const MOST: u64 = 16_385;

// Reads so many bytes at most, and no more than there are.
pub fn read_up_to<R: Read + Drop>(heap: Global, input: R, most: u64) -> anyhow::Result<Vec<u8>>
    ensures { IfOk result (λ v. IfSome (R.remaining input) (λ bytes. v.items ≡ take most bytes)) }
{
    let mut bytes = Vec::new(heap);
    let _ = input.take(most).read_to_end(&mut bytes)?;
    Ok(bytes)
}

// Reads a text; of one that is too long, no more than shows it.
pub fn read_text<R: Read + Drop>(heap: Global, input: R) -> anyhow::Result<Vec<u8>>
    ensures { IfOk result (λ v. IfSome (R.remaining input) (λ bytes. v.items ≡ take 16385 bytes)) }
{
    read_up_to(heap, input, MOST)
}

#[cfg(test)]
mod tests;
