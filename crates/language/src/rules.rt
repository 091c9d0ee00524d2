// The rule of each construct: the cell of its type, from those of its parts' types.
ghost use Rattle.std.specs.Prelude.{◌≡◌};
ghost use Rattle.calculus.specs.Types.{Ty};
ghost use Rattle.syntax.specs.Program.{DenotesType};
ghost use Rattle.language.specs.Infer.{succ_rule, app_rule, iter_rule};
ghost use Rattle.language.specs.Measures.{IsType};
ghost use Rattle.language.specs.Checks.{ill_typed, Splits, Gives};

use crate::table::TypeTable;
use syntax::program::TypeCell;
use syntax::refusal::{Fault, Refusal};

fn ill_typed(place: usize) -> Refusal
    ensures { result ≡ ill_typed place }
{
    Refusal {
        fault: Fault::IllTyped,
        place,
    }
}

impl TypeTable {
    // The successor of a number is a number.
    pub(crate) fn successor(&self, place: usize, part: usize) -> Result<usize, Refusal>
        requires { IsType self.now.cells.items part }
        ensures { (A : Ty) → DenotesType self.now.cells.items part A → Gives self.now.cells.items place (succ_rule place A) result }
    {
        match self.cell(part) {
            TypeCell::N => Ok(part),
            TypeCell::Arrow(_, _) | TypeCell::Product(_, _) => Err(ill_typed(place)),
        }
    }

    // A function takes an argument of its own domain.
    pub(crate) fn application(
        &self,
        place: usize,
        function: usize,
        argument: usize,
    ) -> Result<usize, Refusal>
        requires function { IsType self.now.cells.items function }
        requires argument { IsType self.now.cells.items argument }
        ensures { (F A : Ty) → DenotesType self.now.cells.items function F → DenotesType self.now.cells.items argument A → Gives self.now.cells.items place (app_rule place F A) result }
    {
        match self.cell(function) {
            TypeCell::Arrow(domain, result) if self.same(domain, argument) => Ok(result),
            _ => Err(ill_typed(place)),
        }
    }

    // The two parts of a pair type.
    pub(crate) fn components(&self, place: usize, pair: usize) -> Result<(usize, usize), Refusal>
        requires { IsType self.now.cells.items pair }
        ensures { (A : Ty) → DenotesType self.now.cells.items pair A → Splits self.now.cells.items place A result }
    {
        match self.cell(pair) {
            TypeCell::Product(left, right) => Ok((left, right)),
            TypeCell::N | TypeCell::Arrow(_, _) => Err(ill_typed(place)),
        }
    }

    // A step from a type to itself, from a base of that type, as often as a number says.
    pub(crate) fn iterator(
        &self,
        place: usize,
        count: usize,
        step: usize,
        base: usize,
    ) -> Result<usize, Refusal>
        requires count { IsType self.now.cells.items count }
        requires step { IsType self.now.cells.items step }
        requires base { IsType self.now.cells.items base }
        ensures { (A F C : Ty) → DenotesType self.now.cells.items count A → DenotesType self.now.cells.items step F → DenotesType self.now.cells.items base C → Gives self.now.cells.items place (iter_rule place A F C) result }
    {
        match (self.cell(count), self.cell(step)) {
            (TypeCell::N, TypeCell::Arrow(domain, result))
                if self.same(domain, result) && self.same(domain, base) => Ok(base),
            _ => Err(ill_typed(place)),
        }
    }
}
