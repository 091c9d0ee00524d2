// The cells of a token's stacks as text: by `Text` and not `Display`, as that trait tells.
ghost use Rattle.token.specs.Line.{letter_text, iter_text, data_text};

use crate::memory::{DataCell, IterCell, Letter};
use writer::{Text, Writer};

impl Text for Letter {
    ghost text = { letter_text };

    fn write(&self, writer: &mut Writer<'_>) {
        match self {
            Letter::Left => writer.put(b'l'),
            Letter::Right => writer.put(b'r'),
        }
    }
}

impl Text for IterCell {
    ghost text = { iter_text };

    fn write(&self, writer: &mut Writer<'_>) {
        match self {
            IterCell::Number(a) => writer.number(u64::from(*a)),
            IterCell::Pair(a, b) => {
                writer.number(u64::from(*a));
                writer.put(b'/');
                writer.number(u64::from(*b));
            }
        }
    }
}

impl Text for DataCell {
    ghost text = { data_text };

    fn write(&self, writer: &mut Writer<'_>) {
        match self {
            DataCell::Question => writer.put(b'*'),
            DataCell::Number(a) => writer.number(u64::from(*a)),
        }
    }
}
