ghost use Rattle.std.specs.Prelude.{OnOk};
ghost use Rattle.std.specs.Io.KnownBytes.{Appends};
ghost use Rattle.lab.specs.Refusals.{refusal_text};

use crate::memory::Memory;
use std::io::{self, Write};
use syntax::refusal::Refusal;
use writer::{Text, Writer};

// A text that was refused, with the memory that was lent for it.
#[derive(Drop)]
pub struct Refused<'a> {
    pub refusal: Refusal,
    pub memory: Memory<'a>,
}

// For a host that shows it in lent memory; where there is a writer, `Display` of the refusal says the same.
impl<'a> Text for Refused<'a> {
    ghost text = { λ r. refusal_text r.refusal };

    fn write(&self, writer: &mut Writer<'_>) {
        writer.bytes(b"refused=");
        writer.number(u64::from(u8::from(self.refusal.fault)));
        writer.bytes(b" place=");
        // No `From` widens a `usize`.
        writer.number(self.refusal.place as u64);
        writer.bytes(b"\n");
    }
}

// Writes why a text is refused, as a line.
pub fn write_refused<W: Write>(out: &mut W, refused: &Refused<'_>) -> io::Result<()>
    ensures { OnOk result (Appends (W.contents out.old) (W.contents out.new) (refusal_text refused.now.refusal)) }
{
    writeln!(out, "{}", refused.refusal)
}
