// The counts of a checked program, over the slice of its typed sub-terms.
ghost use Rattle.std.specs.Prelude.{◌≡◌, ◌+◌, List};
ghost use Rattle.language.specs.Judgements.{Judgement, Low};
ghost use Rattle.language.specs.Checks.{Lists};
ghost use Rattle.language.specs.Counts.{Countable, Counts, iterator_at, successor_at, share_at};

use crate::counts::Facts;
use crate::measure::Measure;
use crate::table::TypeTable;
use crate::typing::Typing;
use syntax::program::{Shape, Subterm};

// What a sub-term adds to the iterators and the successor signs, and to the weight: the Ns of its type, or none at a let.
fn added(shape: Shape, measure: Measure) -> (usize, usize, u128)
    ensures { result ≡ (iterator_at shape, successor_at shape, share_at shape measure) }
{
    match shape {
        Shape::Iterator { .. } => (1, 0, measure.naturals),
        Shape::Successor(_) => (0, 1, measure.naturals),
        Shape::Let { .. } => (0, 0, 0),
        _ => (0, 0, measure.naturals),
    }
}

// The project prescribes this form, a loop over the slice of typed sub-terms.
pub(crate) fn facts(subs: &[Subterm], typings: &[Typing], types: &TypeTable) -> Facts
    requires { Countable subs.now types.now.cells.items typings.now }
    ensures { (js : List Judgement) → Lists subs.now types.now.cells.items typings.now js → Low js → Counts js result }
{
    let mut facts = Facts::default();
    for typing in typings {
        let shape = subs[typing.subterm].shape;
        let measure = types.measure(typing.cell);
        let (iterators, successors, weight) = added(shape, measure);
        facts.subterms += 1;
        facts.iterators += iterators;
        facts.successors += successors;
        facts.height = facts.height.max(measure.height);
        facts.weight += weight;
    }
    facts
}
