// What is counted of a checked program.
ghost use Rattle.std.specs.Prelude.{Some};
ghost use Rattle.language.specs.Printed.{counts_text};

use std::fmt;

// How many sub-terms, iterators and successor signs it has, the greatest height of a sub-term's type, and its weight.
#[derive(Clone, Copy, PartialEq, Eq, Default, Debug)]
pub struct Facts {
    pub subterms: usize,
    pub iterators: usize,
    pub successors: usize,
    pub height: usize,
    pub weight: u128,
}

impl fmt::Display for Facts {
    ghost output = { λ f. Some (counts_text f) };

    fn fmt<W: fmt::Write>(&self, f: &mut fmt::Formatter<W>) -> fmt::Result {
        let Facts {
            subterms,
            iterators,
            successors,
            height,
            weight,
        } = self;
        write!(
            f,
            "subterms={subterms} iterators={iterators} successors={successors} height={height} weight={weight}"
        )
    }
}
