ghost use Rattle.std.specs.Prelude.{◌≡◌};
ghost use Rattle.writer.specs.Written.{Wrote};
ghost use Rattle.lab.specs.Ends.{end_number, number_text, end_text};

use machine::Reason;
use writer::{Text, Writer};

// How a walk ended: why, at which sum, and with which number.
#[derive(Clone, Copy)]
pub struct End {
    pub why: Option<Reason>,
    pub sum: i64,
    pub number: Option<u32>,
}

// `Text` and not `Display`, as that trait tells.
impl Text for End {
    ghost text = { end_text };

    fn write(&self, writer: &mut Writer<'_>) {
        writer.bytes(b"end=");
        writer.number(u64::from(number_of(self.why)));
        writer.bytes(b" steps=");
        writer.signed(self.sum);
        writer.bytes(b" number=");
        write_number(self.number, writer);
        writer.bytes(b"\n");
    }
}

// The number of the reason, and 0 where there is none.
fn number_of(why: Option<Reason>) -> u8
    ensures { result ≡ end_number why }
{
    match why {
        Some(reason) => u8::from(reason),
        None => 0,
    }
}

// A part of the end line, so no `Text` of its own.
fn write_number(number: Option<u32>, writer: &mut Writer<'_>)
    ensures { Wrote writer.old (number_text number) writer.new }
{
    match number {
        Some(n) => writer.number(u64::from(n)),
        None => writer.put(b'-'),
    }
}
