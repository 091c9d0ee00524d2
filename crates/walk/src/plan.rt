// The words that ask for a walk, read one after another.
ghost use Rattle.std.specs.Prelude.{◌≡◌, [], ◌∷◌, ◌++◌, map, string_bytes, MatchResult, Some, OnOk};
ghost use Rattle.walk.specs.declared.plan.NoPlan.TheVariants.{Memory};
ghost use Rattle.walk.specs.Words.{Named, Wants, Becomes, Counts, IsBlank, Planned};
ghost use Rattle.walk.specs.Refusing.{told_text, Took, TookWord, Unplanned};

use lab::LINE;
use runs::Call;
use std::alloc::{AllocError, Global};
use std::fmt;
use token::DataCell;
use token_machine::Query;

// A word that a number follows.
#[derive(Clone, Copy)]
enum Counted {
    Open,
    Forward,
    Back,
}

// What the next word has to be.
#[derive(Clone, Copy)]
enum Wanted {
    // A word, and the first one, so that it may open the token.
    First,
    Word,
    // The number that the last word wants.
    Number(Counted),
}

// What the words taken so far ask for: the cell that the token opens with, and the calls.
#[derive(Drop)]
pub struct Plan {
    pub first: DataCell,
    pub calls: Vec<Call<Query>>,
    wanted: Wanted,
}

// Why words ask for no walk.
#[derive(Debug, Drop)]
pub enum NoPlan<'w> {
    // A word that is not known where it stands.
    NotKnown(&'w str),
    // The words end where a number is wanted.
    NoNumber,
    Memory(AllocError),
}

impl From<AllocError> for NoPlan<'_> {
    ghost from_gives = { λ error told. told ≡ Memory error };

    fn from(error: AllocError) -> Self {
        NoPlan::Memory(error)
    }
}

impl fmt::Display for NoPlan<'_> {
    ghost output = { λ told. Some (told_text told) };

    fn fmt<W: fmt::Write>(&self, f: &mut fmt::Formatter<W>) -> fmt::Result {
        match self {
            NoPlan::NotKnown(word) => write!(f, "not known here: {word}"),
            NoPlan::NoNumber => write!(f, "not known here: the end, for a number"),
            NoPlan::Memory(_) => write!(f, "out of memory"),
        }
    }
}

// Reads the words one after another, or names the first that is not known where it stands.
#[tactic(auto, using(crate::proofs::Reading::refused, crate::proofs::Reading::taken_as, crate::proofs::Reading::led_more))]
pub fn read_words<'w>(words: &'w [String], heap: Global) -> Result<Plan, NoPlan<'w>>
    ensures { MatchResult result (Planned (map string_bytes words.now)) (Unplanned (map string_bytes words.now)) }
{
    let mut plan = Plan::new(heap);
    for word in words {
        plan.take(word.as_str())?;
    }
    match plan.wanted {
        Wanted::Number(_) => Err(NoPlan::NoNumber),
        Wanted::First | Wanted::Word => Ok(plan),
    }
}

impl Plan {
    // With no word, the token opens with the question and nothing is called.
    fn new(heap: Global) -> Plan
        ensures { IsBlank result }
    {
        Plan {
            first: DataCell::Question,
            calls: Vec::new(heap),
            wanted: Wanted::First,
        }
    }

    // Takes one word more, if it is known where it stands.
    fn take<'w>(&mut self, word: &'w str) -> Result<(), NoPlan<'w>>
        ensures { Took self.old.wanted word.now self.old self.new result }
    {
        match self.wanted {
            Wanted::Number(counted) => self.take_number(counted, word),
            Wanted::First | Wanted::Word => self.take_word(word),
        }
    }

    // Takes the number that the word before wants.
    fn take_number<'w>(&mut self, counted: Counted, word: &'w str) -> Result<(), NoPlan<'w>>
        ensures { Took (Wanted.Number counted) word.now self.old self.new result }
    {
        let Ok(n) = word.parse::<u32>() else {
            return Err(NoPlan::NotKnown(word));
        };
        self.count(counted, n)?;
        Ok(())
    }

    fn take_word<'w>(&mut self, word: &'w str) -> Result<(), NoPlan<'w>>
        ensures { TookWord self.old.wanted word.now self.old self.new result }
    {
        if let Some(call) = call_of(word) {
            self.add(call)?;
            return Ok(());
        }
        let Some(counted) = counted_of(word, self.wanted) else {
            return Err(NoPlan::NotKnown(word));
        };
        self.wanted = Wanted::Number(counted);
        Ok(())
    }

    // Takes the number after a word.
    fn count(&mut self, counted: Counted, n: u32) -> Result<(), AllocError>
        ensures { OnOk result (Counts counted n self.old self.new) }
    {
        match counted {
            Counted::Open => {
                self.first = DataCell::Number(n);
                self.wanted = Wanted::Word;
                Ok(())
            }
            Counted::Forward => self.add(Call::Forward(n)),
            Counted::Back => self.add(Call::Back(n)),
        }
    }

    // Adds a call, after which no number is wanted.
    fn add(&mut self, call: Call<Query>) -> Result<(), AllocError>
        ensures { OnOk result (Becomes self.new (self.old.calls.items ++ (call ∷ [])) self.old.first Wanted.Word) }
    {
        self.calls.push(call)?;
        self.wanted = Wanted::Word;
        Ok(())
    }
}

// The call that a word asks for by itself.
fn call_of(word: &str) -> Option<Call<Query>>
    ensures { Named word.now result }
{
    match word {
        "sum" => Some(Call::Sum),
        "probe" => Some(Call::Probe),
        "bring-back" => Some(Call::BringBack),
        "keep" => Some(Call::Keep),
        "show" => Some(Call::Read(Query::Show(LINE))),
        "number" => Some(Call::Read(Query::Number)),
        _ => None,
    }
}

// The word, if it wants a number. A token is opened first of all, or not by a word.
fn counted_of(word: &str, wanted: Wanted) -> Option<Counted>
    ensures { Wants word.now wanted result }
{
    match (word, wanted) {
        ("open", Wanted::First) => Some(Counted::Open),
        ("forward", _) => Some(Counted::Forward),
        ("back", _) => Some(Counted::Back),
        _ => None,
    }
}
