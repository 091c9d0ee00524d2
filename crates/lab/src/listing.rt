ghost use Rattle.std.specs.Prelude.{◌≡◌, ◌∷◌, length, IfOk};
ghost use Rattle.machine.specs.Standing.{stands};
ghost use Rattle.token_machine.specs.Tokens.{state_of};
ghost use Rattle.writer.specs.Written.{Shown};
ghost use Rattle.lab.specs.Listings.{line_at, lines, end_line, last_of, longest, rest_of, Listed, ListingsTell};
ghost use Rattle.lab.specs.Bounds.{line_room, LinesFit};

use crate::ends::End;
use crate::stages::Stage;
use machine::{Reason, Walk};
use std::alloc::{AllocError, Global};
use token_machine::{Token, number, show};
use writer::show_text;

// The most steps that a listing takes.
const LONGEST: u32 = 100_000;

// A buffer of so many bytes takes every line of a token in the memory that the programs lend.
pub const LINE: usize = 18_000;

// A buffer for lines.
pub fn line_buffer(heap: Global) -> Result<Vec<u8>, AllocError>
    ensures { IfOk result (λ v. length v.items ≡ line_room) }
{
    vec![in heap; 0; LINE]
}

// The listing of a walk, line by line.
#[derive(Drop)]
pub struct Listing<'a> {
    walk: Walk<Token<'a>>,
    stage: Stage,
}

impl<'a> Listing<'a> {
    // The listing from where the walk stands.
    pub fn new(walk: Walk<Token<'a>>) -> Listing<'a>
        ensures rest { rest_of result.stage (stands state_of result.walk) ≡ lines longest (stands state_of walk.entry) }
        ensures tells { ListingsTell }
        ensures fit { LinesFit }
    {
        Listing {
            walk,
            stage: Stage::Lines(LONGEST),
        }
    }

    // Writes the next line to the front of the buffer and returns its length, or nothing where the listing is over;
    // or leaves buffer and listing as they were, if the line is longer than the buffer.
    pub fn next_line(&mut self, buf: &mut [u8]) -> Result<Option<usize>, Reason>
        ensures { Listed (rest_of self.old.stage (stands state_of self.old.walk)) (rest_of self.new.stage (stands state_of self.new.walk)) buf.old buf.new result }
    {
        match self.stage {
            Stage::Lines(left) => {
                let length = show(&self.walk, buf)?;
                self.advance(left);
                Ok(Some(length))
            }
            Stage::End(why) => {
                let length = show_end(&self.walk, why, buf)?;
                self.stage = Stage::Over;
                Ok(Some(length))
            }
            Stage::Over => Ok(None),
        }
    }

    // Takes the next step, if one is left.
    fn advance(&mut self, left: u32)
        ensures { lines left (stands state_of self.old.walk) ≡ line_at (stands state_of self.old.walk) ∷ rest_of self.new.stage (stands state_of self.new.walk) }
    {
        if left == 0 {
            self.stage = Stage::End(None);
            return;
        }
        let (_, why) = self.walk.forward(1);
        self.stage = match why {
            None => Stage::Lines(left - 1),
            Some(reason) => Stage::End(Some(reason)),
        };
    }
}

// Writes how a walk ended to the front of the buffer.
fn show_end(walk: &Walk<Token<'_>>, why: Option<Reason>, buf: &mut [u8]) -> Result<usize, Reason>
    ensures { Shown (end_line why (stands state_of walk.now)) buf.old buf.new result }
{
    let end = End {
        why,
        sum: walk.sum(),
        number: number(walk).ok(),
    };
    show_text(&end, buf)
}

// Walks on to the end of the listing, and writes its last line alone to the front of the buffer.
pub fn show_outcome(walk: &mut Walk<Token<'_>>, buf: &mut [u8]) -> Result<usize, Reason>
    ensures { Shown (last_of (lines longest (stands state_of walk.old))) buf.old buf.new result }
{
    let (_, why) = walk.forward(LONGEST);
    show_end(walk, why, buf)
}
