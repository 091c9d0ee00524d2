// A whole program: its sub-terms' types, its own type, and its counts.
ghost use Rattle.std.specs.Prelude.{ℕ, ◌≤◌, List, length};
ghost use Rattle.calculus.specs.Types.{Ty};
ghost use Rattle.syntax.specs.Trees.{Tree};
ghost use Rattle.syntax.specs.Program.{DenotesType, Denotes};
ghost use Rattle.syntax.specs.Answer.{Spans};
ghost use Rattle.language.specs.Measures.{IsType};
ghost use Rattle.language.specs.Judgements.{Judgement, Low};
ghost use Rattle.language.specs.Checks.{cells_of, typings_of, Begun, Lists};
ghost use Rattle.language.specs.Counts.{Countable, Limited};
ghost use Rattle.language.specs.Accepts.{Numbers, Given, Concludes};

use crate::checker::Checker;
use crate::context::Context;
use crate::counts::Facts;
use crate::facts::facts;
use crate::table::TypeTable;
use std::alloc::{AllocError, Global};
use syntax::program::{Subterm, TypeCell};
use syntax::refusal::{Fault, Refusal};

const SUBTERMS: usize = 2048;

const ITERATORS: usize = 64;

impl Checker {
    pub(crate) fn new(heap: Global) -> Result<Checker, AllocError> {
        let types = TypeTable::new(heap)?;
        let typings = Vec::with_capacity(heap, SUBTERMS)?;
        let context = Context::new(heap)?;
        Ok(Checker {
            types,
            typings,
            context,
            number: 0,
        })
    }

    // Begins anew, with these type cells and one more for N.
    fn begin(&mut self, cells: &[TypeCell])
        requires { length cells.now ≤ 2048 }
        ensures { Begun cells.now self.new }
    {
        self.typings.clear();
        self.context.clear();
        self.types.clear();
        self.types.load(cells);
        self.number = self.types.add(TypeCell::N);
    }

    // Is this type N?
    fn ask_number(&self, cell: usize) -> Result<(), Refusal>
        requires { IsType (cells_of self.now) cell }
        ensures { (A : Ty) → DenotesType (cells_of self.now) cell A → Numbers A result }
    {
        match self.types.cell(cell) {
            TypeCell::N => Ok(()),
            TypeCell::Arrow(_, _) | TypeCell::Product(_, _) => Err(Refusal {
                fault: Fault::NoNumber,
                place: 0,
            }),
        }
    }

    // The counts of a program whose types stand, if its iterators are few.
    fn counted(&self, subs: &[Subterm]) -> Result<Facts, Refusal>
        requires { Countable subs.now (cells_of self.now) (typings_of self.now) }
        ensures { (js : List Judgement) → Lists subs.now (cells_of self.now) (typings_of self.now) js → Low js → Limited js result }
    {
        let facts = facts(subs, &self.typings, &self.types);
        if facts.iterators > ITERATORS {
            return Err(Refusal {
                fault: Fault::ManyIterators,
                place: 0,
            });
        }
        Ok(facts)
    }

    // Has the program types, is its own N, and are its iterators few?
    pub(crate) fn conclude(
        &mut self,
        subs: &[Subterm],
        cells: &[TypeCell],
        root: usize,
    ) -> Result<Facts, Refusal>
        requires { Given subs.now cells.now root }
        ensures { (t : Tree ℕ) → Denotes subs.now cells.now root t → Spans subs.now cells.now 0 root t → Concludes subs.now root t (cells_of self.new) (typings_of self.new) result }
    {
        self.begin(cells);
        let cell = self.check(subs, root)?;
        self.ask_number(cell)?;
        self.counted(subs)
    }
}
