// The type of each sub-term: parts before wholes, left before right.
ghost use Rattle.std.specs.Prelude.{◌<◌, length};
ghost use Rattle.calculus.specs.Types.{Ty};
ghost use Rattle.syntax.specs.Program.{DenotesType};
ghost use Rattle.syntax.specs.declared.program.Shape.TheVariants.{Successor, Function, Application, Pair, Let, Iterator};
ghost use Rattle.language.specs.Infer.{within};
ghost use Rattle.language.specs.Measures.{IsType};
ghost use Rattle.language.specs.Checks.{cells_of, typings_of, Agrees, Noted, Ready, ReadyAs, Infers, Checks};

use crate::checker::Checker;
use crate::typing::Typing;
use syntax::program::{Shape, Subterm, TypeCell};
use syntax::refusal::{Fault, Refusal};

// The greatest height of a sub-term's type.
const HIGHEST: usize = 64;

impl Checker {
    // The type of sub-term i, and of each of its parts on the way.
    #[cycle(check_infer)]
    pub(crate) fn check(&mut self, subs: &[Subterm], i: usize) -> Result<usize, Refusal>
        requires { Ready subs.now i self.old }
        ensures { Checks subs.now i self.old self.new result }
    {
        let cell = self.infer(subs, i)?;
        self.judge(i, subs[i].place, cell)
    }

    // The type that the parts of sub-term i give it, once they are checked.
    // A construct with parts has a function of its own: room for the parts' answers is cleared as a function begins, and here it
    // would be cleared for all constructs at each sub-term.
    #[cycle(check_infer)]
    fn infer(&mut self, subs: &[Subterm], i: usize) -> Result<usize, Refusal>
        requires { Ready subs.now i self.old }
        ensures { Infers subs.now i self.old self.new result }
    {
        let shape = subs[i].shape;
        match shape {
            Shape::Variable(binder) => Ok(self.context.cell_of(binder).unwrap_or(self.number)),
            Shape::Number(_) => Ok(self.number),
            Shape::Successor(part) => self.infer_successor(subs, i, part),
            Shape::Function {
                binder,
                annotation,
                body,
            } => self.infer_function(subs, i, binder, annotation, body),
            Shape::Application(function, argument) => {
                self.infer_application(subs, i, function, argument)
            }
            Shape::Pair(first, second) => self.infer_pair(subs, i, first, second),
            Shape::Let {
                first,
                second,
                pair,
                body,
            } => self.infer_let(subs, i, first, second, pair, body),
            Shape::Iterator { count, step, base } => {
                self.infer_iterator(subs, i, count, step, base)
            }
        }
    }

    // The successor of a part.
    #[cycle(check_infer)]
    fn infer_successor(&mut self, subs: &[Subterm], i: usize, part: usize) -> Result<usize, Refusal>
        requires { ReadyAs subs.now i self.old (Successor part) }
        ensures { Infers subs.now i self.old self.new result }
    {
        let part = self.check(subs, part)?;
        self.types.successor(subs[i].place, part)
    }

    // A function: its body is checked with its variable in force.
    #[cycle(check_infer)]
    fn infer_function(
        &mut self,
        subs: &[Subterm],
        i: usize,
        binder: usize,
        annotation: usize,
        body: usize,
    ) -> Result<usize, Refusal>
        requires { ReadyAs subs.now i self.old (Function binder annotation body) }
        ensures { Infers subs.now i self.old self.new result }
    {
        let before = self.context.len();
        self.context.bind(binder, annotation);
        let result = self.check(subs, body)?;
        self.context.release(before);
        Ok(self.types.add(TypeCell::Arrow(annotation, result)))
    }

    // A function and its argument.
    #[cycle(check_infer)]
    fn infer_application(
        &mut self,
        subs: &[Subterm],
        i: usize,
        function: usize,
        argument: usize,
    ) -> Result<usize, Refusal>
        requires { ReadyAs subs.now i self.old (Application function argument) }
        ensures { Infers subs.now i self.old self.new result }
    {
        let function = self.check(subs, function)?;
        let argument = self.check(subs, argument)?;
        self.types.application(subs[i].place, function, argument)
    }

    // A pair of two parts.
    #[cycle(check_infer)]
    fn infer_pair(
        &mut self,
        subs: &[Subterm],
        i: usize,
        first: usize,
        second: usize,
    ) -> Result<usize, Refusal>
        requires { ReadyAs subs.now i self.old (Pair first second) }
        ensures { Infers subs.now i self.old self.new result }
    {
        let first = self.check(subs, first)?;
        let second = self.check(subs, second)?;
        Ok(self.types.add(TypeCell::Product(first, second)))
    }

    // A let: its pair is asked for before its body is looked at.
    #[cycle(check_infer)]
    fn infer_let(
        &mut self,
        subs: &[Subterm],
        i: usize,
        first: usize,
        second: usize,
        pair: usize,
        body: usize,
    ) -> Result<usize, Refusal>
        requires { ReadyAs subs.now i self.old (Let first second pair body) }
        ensures { Infers subs.now i self.old self.new result }
    {
        let pair = self.check(subs, pair)?;
        let (left, right) = self.types.components(subs[i].place, pair)?;
        let before = self.context.len();
        self.context.bind(first, left);
        self.context.bind(second, right);
        let cell = self.check(subs, body)?;
        self.context.release(before);
        Ok(cell)
    }

    // A count, a step and a base.
    #[cycle(check_infer)]
    fn infer_iterator(
        &mut self,
        subs: &[Subterm],
        i: usize,
        count: usize,
        step: usize,
        base: usize,
    ) -> Result<usize, Refusal>
        requires { ReadyAs subs.now i self.old (Iterator count step base) }
        ensures { Infers subs.now i self.old self.new result }
    {
        let count = self.check(subs, count)?;
        let step = self.check(subs, step)?;
        let base = self.check(subs, base)?;
        self.types.iterator(subs[i].place, count, step, base)
    }

    // Asks whether the type of a sub-term is low enough, and notes it.
    fn judge(&mut self, subterm: usize, place: usize, cell: usize) -> Result<usize, Refusal>
        requires typed { IsType (cells_of self.old) cell }
        requires room { length (typings_of self.old) < 2048 }
        ensures agrees { (A : Ty) → DenotesType (cells_of self.old) cell A → Agrees (cells_of self.old) result (within place A) }
        ensures noted { Noted subterm self.old self.new result }
    {
        if self.types.measure(cell).height > HIGHEST {
            return Err(Refusal {
                fault: Fault::HighType,
                place,
            });
        }
        self.typings.push_reserved(Typing { subterm, cell });
        Ok(cell)
    }
}
