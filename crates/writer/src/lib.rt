// A small writer of text: byte after byte, from the front of a lent buffer.
#![tactic(auto)]

ghost use Rattle.std.specs.Prelude.{ℕ, List, [], ◌∷◌, reverse, decimal};
ghost use Rattle.std.specs.Fmt.{signed_decimal};
ghost use Rattle.writer.specs.Written.{Wrote, Shown, listed};

use machine::Reason;

// The buffer, and how many bytes have been put. Bytes past the buffer's end are counted and go nowhere,
// so a text is measured by writing it to an empty buffer. The buffer is the host's, so it is no `Vec`.
#[derive(Drop)]
pub struct Writer<'a> {
    pub buf: &'a mut [u8],
    pub at: usize,
}

// What a writer can write. Not `Display`: its `fmt` may fail as it likes, and then showing a text had no answer.
pub trait Text {
    ghost text: { Self → List ℕ };

    fn write(&self, writer: &mut Writer<'_>)
        ensures { Wrote writer.old (text self.now) writer.new };
}

impl Writer<'_> {
    pub fn put(&mut self, b: u8)
        ensures { Wrote self.old (b ∷ []) self.new }
    {
        if self.at < self.buf.len() {
            self.buf[self.at] = b;
        }
        self.at = self.at.saturating_add(1);
    }

    pub fn bytes(&mut self, text: &[u8])
        ensures { Wrote self.old text.now self.new }
    {
        for b in text {
            self.put(*b);
        }
    }

    pub fn number(&mut self, n: u64)
        ensures { Wrote self.old (decimal n) self.new }
    {
        if n >= 10 {
            self.number(n / 10);
        }
        // One digit, so a byte.
        self.put(b'0' + (n % 10) as u8);
    }

    pub fn signed(&mut self, n: i64)
        ensures { Wrote self.old (signed_decimal n) self.new }
    {
        if n < 0 {
            self.put(b'-');
        }
        self.number(n.unsigned_abs());
    }

    // The cells of a stack, whose top is the last, from the top down, with commas between them; `-` if it is empty.
    pub fn stack<C: Text>(&mut self, cells: &[C])
        ensures { Wrote self.old (listed C.text (reverse cells.now)) self.new }
    {
        let [below @ .., top] = cells else {
            self.put(b'-');
            return;
        };
        top.write(self);
        for cell in below.iter().rev() {
            self.put(b',');
            cell.write(self);
        }
    }
}

// Writes a text to the front of the buffer and returns its length; or leaves the buffer as it was.
pub fn show_text<T: Text>(content: &T, buf: &mut [u8]) -> Result<usize, Reason>
    ensures { Shown (T.text content.now) buf.old buf.new result }
{
    let mut measure = Writer {
        buf: &mut [],
        at: 0,
    };
    content.write(&mut measure);
    if measure.at > buf.len() {
        return Err(Reason::ShortBuffer);
    }
    let mut writer = Writer { buf, at: 0 };
    content.write(&mut writer);
    Ok(writer.at)
}
