ghost use Rattle.std.specs.Prelude.{◌≤◌, length};

use crate::refusal::Refusal;

// What is left of a text, which ends at `end`: that is a place of the whole text, and no length of `bytes`.
#[derive(Clone, Copy)]
pub(crate) struct Rest<'a> {
    pub(crate) bytes: &'a [u8],
    pub(crate) end: usize,
    ghost within: { length bytes.now ≤ end },
}

// What a reader gives: a value, and what is left of the text after it.
pub(crate) type Read<'a, T> = Result<(T, Rest<'a>), Refusal>;

// A name where it is bound: its letters in the text, with the place of the first, which is no length of `name`.
#[derive(Clone, Copy)]
pub(crate) struct Binder<'a> {
    pub(crate) place: usize,
    pub(crate) name: &'a [u8],
    ghost short: { length name.now ≤ 16 },
}

// Where a sub-term begins: the place of its first byte, inside `depth` others.
#[derive(Clone, Copy)]
pub(crate) struct Start {
    pub(crate) place: usize,
    pub(crate) depth: usize,
}

// What stands before the body of a function: its variable and the cell of its type.
#[derive(Clone, Copy)]
pub(crate) struct Head<'a> {
    pub(crate) binder: Binder<'a>,
    pub(crate) annotation: usize,
}

// What the first sign of a term tells of it.
#[derive(Clone, Copy)]
pub(crate) enum First<'a> {
    Name(&'a [u8]),
    Number(u32),
    Successor,
    Function,
    Application,
    Pair,
    Let,
    Iterator,
}
