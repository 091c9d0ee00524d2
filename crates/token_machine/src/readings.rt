ghost use Rattle.std.specs.Prelude.{IfOk};
ghost use Rattle.writer.specs.Written.{Shown};
ghost use Rattle.token.specs.Line.{line};
ghost use Rattle.token_machine.specs.Readings.{Reading, reading_of, told, Ready};
ghost use Rattle.token_machine.specs.Tokens.{state_of, NumberRead};

use crate::queries::{Query, Reply};
use crate::tokens::Token;
use machine::{Reason, Walk};
use runs::Readable;
use std::alloc::{AllocError, Global};

impl<'a> Readable for Token<'a> {
    type Query = Query;

    type Room = Vec<u8>;

    type Reply = Reply;

    ghost Told = { Reading };

    ghost told = { told };

    ghost reading = { λ m z q. reading_of (state_of m) z q };

    ghost fits = { Ready };

    fn room(query: &Query, heap: Global) -> Result<Vec<u8>, AllocError>
        ensures { IfOk result (Ready query.now) }
    {
        let length = match query {
            Query::Show(n) => *n,
            Query::Number => 0,
        };
        vec![in heap; 0; length]
    }

    fn reply(&self, sum: i64, query: &Query, room: Vec<u8>) -> Reply {
        let mut room = room;
        match query {
            Query::Show(_) => {
                let shown = self.show(sum, room.as_mut_slice());
                Reply::Shown(shown, room)
            }
            Query::Number => Reply::Number(self.number()),
        }
    }
}

// Writes the line of a walk of a token to the front of the buffer and returns its length; or leaves the buffer as it was.
pub fn show(walk: &Walk<Token<'_>>, buf: &mut [u8]) -> Result<usize, Reason>
    ensures { Shown (line (state_of walk.now.machine) walk.now.sum.value) buf.old buf.new result }
{
    walk.machine().show(walk.sum(), buf)
}

// The number that the token of a walk brings home.
pub fn number(walk: &Walk<Token<'_>>) -> Result<u32, Reason>
    ensures { NumberRead (state_of walk.now.machine) result }
{
    walk.machine().number()
}
