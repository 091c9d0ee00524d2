// Signs at the front of what is left of a text.
ghost use Rattle.std.specs.Prelude.{◌≡◌, ℕ, ◌-◌, ◌<◌, ◌≤◌, true, false, length, take, drop, slice_index};
ghost use Rattle.syntax.specs.Signs.{blank, letter, digit, within, is_name};
ghost use Rattle.syntax.specs.Parse.{expect as expected, is_mark, is_word_in, binder as bindings, let_head as heads};
ghost use Rattle.syntax.specs.Steps.{skipped, run as front, Gives, Passes, Counted, IsBinder, AreBinders, Opens, signs_in, place_of};

use crate::names::{Binder, First, Read, Rest};
use crate::refusal::{Fault, Refusal};

const LARGEST: u32 = 1_000_000_000;

const LONGEST: usize = 16;

// Is a run of letters a name: short enough, and none of the three words?
fn is_name(word: &[u8]) -> bool
    ensures { result ≡ is_name word.now }
{
    match word {
        b"let" | b"in" | b"iter" => false,
        _ => word.len() <= LONGEST,
    }
}

// A run of digits as a number.
fn number(run: &[u8]) -> Result<u32, Fault>
    requires some { 1 ≤ length run.now }
    requires digits { (k : ℕ) → k < length run.now → digit (slice_index run.now k) ≡ true }
    ensures { Counted run.now result }
{
    if let [b'0', _, ..] = run {
        return Err(Fault::WrongSign);
    }
    let mut value: u32 = 0;
    for b in run {
        let digit = u32::from(*b - b'0');
        if value > (LARGEST - digit) / 10 {
            return Err(Fault::LargeNumber);
        }
        value = value * 10 + digit;
    }
    Ok(value)
}

impl<'a> Rest<'a> {
    // The place of its first byte.
    pub(crate) fn place(self) -> usize
        ensures { result ≡ place_of self.entry }
    {
        self.end - self.bytes.len()
    }

    // The same text where only these bytes are left.
    pub(crate) fn with(self, bytes: &'a [u8]) -> Rest<'a>
        requires { length bytes.now ≤ self.end }
        ensures bytes { result.bytes.now ≡ bytes.now }
        ensures end { result.end ≡ self.entry.end }
    {
        Rest {
            bytes,
            end: self.end,
        }
    }

    // The refusal of what stands here.
    pub(crate) fn refuse(self, fault: Fault) -> Refusal
        ensures { result ≡ record { fault = fault; place = place_of self.entry } }
    {
        Refusal {
            fault,
            place: self.place(),
        }
    }

    // What is left once spaces and line feeds are passed.
    pub(crate) fn skip(self) -> Rest<'a>
        ensures bytes { result.bytes.now ≡ skipped self.entry.bytes.now }
        ensures end { result.end ≡ self.entry.end }
    {
        let mut bytes = self.bytes;
        while let [b' ' | b'\n', after @ ..] = bytes {
            bytes = after;
        }
        self.with(bytes)
    }

    // The longest run of bytes from `low` to `high`, and what is left after it.
    fn run(self, low: u8, high: u8) -> (&'a [u8], Rest<'a>)
        ensures front { result.0.now ≡ take (front (within low high) self.entry.bytes.now) self.entry.bytes.now }
        ensures rest { result.1.bytes.now ≡ drop (front (within low high) self.entry.bytes.now) self.entry.bytes.now }
        ensures end { result.1.end ≡ self.entry.end }
    {
        let n = self
            .bytes
            .iter()
            .take_while(|b| low <= **b && **b <= high)
            .count();
        let (run, after) = self.bytes.split_at(n);
        (run, self.with(after))
    }

    // Passes one sign, which has to be this mark.
    pub(crate) fn expect(self, mark: u8) -> Result<Rest<'a>, Refusal>
        requires { (blank mark ≡ false) × (letter mark ≡ false) × (digit mark ≡ false) }
        ensures { Passes self.entry.end (expected self.entry.end (is_mark mark) (signs_in self.entry)) result }
    {
        let rest = self.skip();
        match rest.bytes {
            [b, after @ ..] if *b == mark => Ok(rest.with(after)),
            _ => Err(rest.refuse(Fault::WrongSign)),
        }
    }

    // Passes the word `in`.
    pub(crate) fn expect_in(self) -> Result<Rest<'a>, Refusal>
        ensures { Passes self.entry.end (expected self.entry.end is_word_in (signs_in self.entry)) result }
    {
        let rest = self.skip();
        let (word, after) = rest.run(b'a', b'z');
        match word {
            b"in" => Ok(after),
            _ => Err(rest.refuse(Fault::WrongSign)),
        }
    }

    // Reads a name where it is bound.
    pub(crate) fn binder(self) -> Read<'a, Binder<'a>>
        ensures { Gives self.entry.end IsBinder (bindings self.entry.end (signs_in self.entry)) result }
    {
        let rest = self.skip();
        let (name, after) = rest.run(b'a', b'z');
        if name.is_empty() || !is_name(name) {
            return Err(rest.refuse(Fault::WrongSign));
        }
        let place = rest.place();
        Ok((Binder { place, name }, after))
    }

    // Reads `<x,y> =` after the word `let`.
    pub(crate) fn let_head(self) -> Read<'a, (Binder<'a>, Binder<'a>)>
        ensures { Gives self.entry.end AreBinders (heads self.entry.end (signs_in self.entry)) result }
    {
        let rest = self.expect(b'<')?;
        let (first, rest) = rest.binder()?;
        let rest = rest.expect(b',')?;
        let (second, rest) = rest.binder()?;
        let rest = rest.expect(b'>')?;
        let rest = rest.expect(b'=')?;
        Ok(((first, second), rest))
    }

    // Which term begins with the word that stands at the front. What this and the next two promise is one word, `Opens`: it is no fact about
    // one value.
    fn first_word(self) -> Read<'a, First<'a>>
        requires starts { 1 ≤ length self.bytes.now }
        requires letter { letter (slice_index self.bytes.now 0) ≡ true }
        ensures { Opens self.entry.end self.entry.bytes.now result }
    {
        let (word, rest) = self.run(b'a', b'z');
        match word {
            b"let" => Ok((First::Let, rest)),
            b"iter" => Ok((First::Iterator, rest)),
            _ => {
                if !is_name(word) {
                    return Err(self.refuse(Fault::WrongSign));
                }
                Ok((First::Name(word), rest))
            },
        }
    }

    fn first_number(self) -> Read<'a, First<'a>>
        requires starts { 1 ≤ length self.bytes.now }
        requires digit { digit (slice_index self.bytes.now 0) ≡ true }
        ensures { Opens self.entry.end self.entry.bytes.now result }
    {
        let (digits, rest) = self.run(b'0', b'9');
        // Tried by `map_err`: the answers stay open, since the contract of `number` has a case for each.
        match number(digits) {
            Ok(n) => Ok((First::Number(n), rest)),
            Err(fault) => Err(self.refuse(fault)),
        }
    }

    // Which term begins at the front of a text that begins with a sign, if one can.
    pub(crate) fn first(self) -> Read<'a, First<'a>>
        requires { self.bytes.now ≡ skipped self.bytes.now }
        ensures { Opens self.entry.end self.entry.bytes.now result }
    {
        match self.bytes {
            [b'S', after @ ..] => Ok((First::Successor, self.with(after))),
            [b'\\', after @ ..] => Ok((First::Function, self.with(after))),
            [b'(', after @ ..] => Ok((First::Application, self.with(after))),
            [b'<', after @ ..] => Ok((First::Pair, self.with(after))),
            [b'a'..=b'z', ..] => self.first_word(),
            [b'0'..=b'9', ..] => self.first_number(),
            _ => Err(self.refuse(Fault::WrongSign)),
        }
    }
}
