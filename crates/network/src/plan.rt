// Counting: how many nodes each sub-term makes, and how many uses of variables are free in it.
ghost use Rattle.std.specs.Prelude.{◌≡◌, ◌≤◌, length, vec_capacity, slice_index_or};
ghost use Rattle.network.specs.Parts.{no_part};
ghost use Rattle.network.specs.Plan.{count_at, both, with_nodes, without_uses, with_transfers, count_of, Planned};

use crate::part::{Count, Part};
use syntax::program::{Shape, Subterm};

// Stands for a part that is not there.
const NO_PART: Part = Part {
    shape: Shape::Variable(0),
    count: Count { nodes: 0, uses: 0 },
};

// A slice and a number, as `get` takes them.
pub(crate) fn part_at(parts: &[Part], i: usize) -> Part
    ensures { slice_index_or parts.now i no_part ≡ result }
{
    parts.get(i).copied().unwrap_or(NO_PART)
}

// Sums stop at the limit of their word, which the counts of a program do not reach.
impl Count {
    fn beside(self, other: Count) -> Count
        ensures { result ≡ both self other }
    {
        Count {
            nodes: self.nodes.saturating_add(other.nodes),
            uses: self.uses.saturating_add(other.uses),
        }
    }

    // With `n` nodes of its own.
    fn making(self, n: usize) -> Count
        ensures { result ≡ with_nodes n self }
    {
        Count {
            nodes: self.nodes.saturating_add(n),
            ..self
        }
    }

    // Under `n` binders, each of which is used once.
    fn binding(self, n: usize) -> Count
        ensures { result ≡ without_uses n self }
    {
        Count {
            uses: self.uses.saturating_sub(n),
            ..self
        }
    }

    // The step or the base of an iterator, with a Transfer node for each free use.
    fn passing(self) -> Count
        ensures { result ≡ with_transfers self }
    {
        self.making(self.uses)
    }
}

fn count_at(parts: &[Part], i: usize) -> Count
    ensures { result ≡ count_at parts.now i }
{
    part_at(parts, i).count
}

fn count_of(parts: &[Part], shape: Shape) -> Count
    ensures { result ≡ count_of parts.now shape }
{
    match shape {
        Shape::Variable(_) => Count { nodes: 0, uses: 1 },
        Shape::Number(_) => Count { nodes: 1, uses: 0 },
        Shape::Successor(t) => count_at(parts, t).making(1),
        Shape::Function { body, .. } => count_at(parts, body).binding(1).making(1),
        Shape::Application(t, u) | Shape::Pair(t, u) => {
            count_at(parts, t).beside(count_at(parts, u)).making(1)
        }
        Shape::Let { pair, body, .. } => {
            let bound = count_at(parts, body).binding(2);
            count_at(parts, pair).beside(bound).making(1)
        }
        Shape::Iterator { count, step, base } => {
            let step = count_at(parts, step).passing();
            let base = count_at(parts, base).passing();
            count_at(parts, count).beside(step.beside(base)).making(4)
        }
    }
}

// Counts the first `count` sub-terms, parts before wholes.
pub(crate) fn plan(subs: &[Subterm], count: usize, parts: &mut Vec<Part>)
    requires there { count ≤ length subs.now }
    requires room { count ≤ vec_capacity parts.old }
    ensures planned { Planned subs.now parts.new.items }
    ensures all { length parts.new.items ≡ count }
    ensures room { vec_capacity parts.new ≡ vec_capacity parts.old }
{
    parts.clear();
    for subterm in &subs[..count] {
        let shape = subterm.shape;
        let count = count_of(parts, shape);
        parts.push_reserved(Part { shape, count });
    }
}
