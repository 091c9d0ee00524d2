ghost use Rattle.writer.specs.Written.{Shown};
ghost use Rattle.token.specs.Line.{line};
ghost use Rattle.token_machine.specs.Tokens.{state_of};

use crate::tokens::Token;
use machine::Reason;
use writer::{Text, Writer, show_text};

// The line of a token at a sum: by `Text` and not `Display`, as that trait tells.
#[derive(Drop)]
struct Line<'t, 'a> {
    token: &'t Token<'a>,
    sum: i64,
}

impl Text for Line<'_, '_> {
    ghost text = { λ l. line (state_of l.token.now) l.sum };

    fn write(&self, writer: &mut Writer<'_>) {
        writer.bytes(b"step=");
        writer.signed(self.sum);
        writer.bytes(b" from=");
        writer.number(u64::from(self.token.from));
        writer.bytes(b" to=");
        writer.number(u64::from(self.token.to));
        writer.bytes(b" m=");
        writer.stack(self.token.letters.as_slice());
        writer.bytes(b" i=");
        writer.stack(self.token.iters.as_slice());
        writer.bytes(b" s=");
        // No `From` widens a `usize`.
        writer.number(self.token.shelves.count() as u64);
        writer.bytes(b" d=");
        writer.stack(self.token.datas.as_slice());
        writer.bytes(b"\n");
    }
}

impl Token<'_> {
    // Writes the token's line at a sum to the front of the buffer and returns its length; or leaves the buffer as it was.
    pub fn show(&self, sum: i64, buf: &mut [u8]) -> Result<usize, Reason>
        ensures { Shown (line (state_of self.now) sum) buf.old buf.new result }
    {
        show_text(&Line { token: self, sum }, buf)
    }
}
