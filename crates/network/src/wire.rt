// The second round: the wires are written, with a table of the ports at which variables start.
ghost use Rattle.std.specs.Prelude.{◌≡◌, ◌+◌, ◌<◌, ◌≤◌, [], ◌++◌, length, replicate, None, IfOk, vec_len, vec_capacity, slice_set};
ghost use Rattle.calculus.specs.Terms.{Term, free, nodes};
ghost use Rattle.geometry.specs.Memory.{wired_cells};
ghost use Rattle.network.specs.Wiring.{start_of, starting, in_force, Gatherable, own_wires, Joinable, Crossable, Crossed, Passable, Enclosed, Passed, Wirable, Wired};

use crate::part::{Part, SUBTERMS};
use crate::plan::part_at;
use crate::ports::join;
use cells::Cell;
use cells::Port::{First, Second, Third};
use std::alloc::{AllocError, Global};
use std::mem::replace;
use syntax::program::Shape;

// A text has no more places than this.
const PLACES: usize = 16_384;

// What wiring works in: for each place in a text the port at which the variable bound there starts, where it is in force; and the free uses
// of a part, all by number: no heap is asked for while a network is built. The parts and the cells stay parameters: as fields here, each method would have to promise that it keeps the parts and the
// reference to the cells, which is no plainer.
#[derive(Drop)]
pub(crate) struct Wiring {
    starts: Vec<Option<usize>>,
    uses: Vec<usize>,
    ghost places: { vec_len starts ≡ 16384 },
    ghost uses_fit: { 2048 ≤ vec_capacity uses },
}

// Wires variables to the Transfer nodes from `first` on: outside they end there, and inside they start there.
fn cross(uses: &[usize], first: usize, starts: &mut [Option<usize>], cells: &mut [Cell])
    requires { Crossable uses.now first starts.old (length cells.old) }
    ensures { Crossed uses.now first starts.old starts.new cells.old cells.new }
{
    // The number of the use makes that of its node.
    for (i, x) in uses.iter().enumerate() {
        let transfer = first + i;
        let outside = replace(&mut starts[*x], Some(Second.at(transfer)));
        join(cells, outside.unwrap(), First.at(transfer));
    }
}

impl Wiring {
    pub(crate) fn new(heap: Global) -> Result<Wiring, AllocError>
        ensures { IfOk result (λ w. (w.starts.items ≡ replicate 16384 None) × (w.uses.items ≡ [])) }
    {
        let starts = Vec::from_elem(heap, None, PLACES)?;
        let uses = Vec::with_capacity(heap, SUBTERMS)?;
        Ok(Wiring { starts, uses })
    }

    // Lets a variable start at another port, or at none, and gives the one before.
    fn rebind(&mut self, x: usize, start: Option<usize>) -> Option<usize>
        requires { x < length self.old.starts.items }
        ensures before { result ≡ start_of self.old.starts.items x }
        ensures after { self.new.starts.items ≡ slice_set self.old.starts.items x start }
        ensures uses { self.new.uses.items ≡ self.old.uses.items }
    {
        replace(&mut self.starts[x], start)
    }

    // Lists the uses in part `i` whose variables are in force, in order of occurrence. Variables bound inside it are not.
    fn gather(&mut self, parts: &[Part], i: usize)
        requires { (t : Term) × Gatherable parts.now i (length self.old.starts.items) (length self.old.uses.items) t }
        ensures found { (t : Term) → Gatherable parts.now i (length self.old.starts.items) (length self.old.uses.items) t → self.new.uses.items ≡ self.old.uses.items ++ in_force self.old.starts.items (free t) }
        ensures kept { self.new.starts.items ≡ self.old.starts.items }
    {
        match part_at(parts, i).shape {
            Shape::Variable(x) => {
                if self.starts[x].is_some() {
                    self.uses.push_reserved(x);
                }
            }
            Shape::Number(_) => {}
            Shape::Successor(t) => self.gather(parts, t),
            Shape::Function { binder, body, .. } => {
                let outer = self.rebind(binder, None);
                self.gather(parts, body);
                self.rebind(binder, outer);
            }
            Shape::Application(t, u) | Shape::Pair(t, u) => {
                self.gather(parts, t);
                self.gather(parts, u);
            }
            Shape::Let {
                first,
                second,
                pair,
                body,
            } => {
                self.gather(parts, pair);
                let outer = self.rebind(first, None);
                let other = self.rebind(second, None);
                self.gather(parts, body);
                self.rebind(second, other);
                self.rebind(first, outer);
            }
            Shape::Iterator { count, step, base } => {
                self.gather(parts, count);
                self.gather(parts, step);
                self.gather(parts, base);
            }
        }
    }

    // Lets the variables free in part `i`, a step or a base whose nodes are numbered from `k` on, pass the Transfer nodes behind these.
    // Gives the number after them.
    fn pass(&mut self, parts: &[Part], i: usize, k: usize, cells: &mut [Cell]) -> usize
        requires { (t : Term) × Passable parts.now i k self.old.starts.items (length cells.old) t }
        ensures { (t : Term) → Passable parts.now i k self.old.starts.items (length cells.old) t → (result ≡ k + nodes t + length (free t)) × Crossed (free t) (k + nodes t) self.old.starts.items self.new.starts.items cells.old cells.new }
    {
        let first = k + part_at(parts, i).count.nodes;
        self.uses.clear();
        self.gather(parts, i);
        cross(&self.uses, first, &mut self.starts, cells);
        first + self.uses.len()
    }

    // Writes the wires that a construct has itself, but those to its parts.
    fn join_own(&self, shape: Shape, k: usize, root: usize, cells: &mut [Cell])
        requires { Joinable shape k root self.now.starts.items (length cells.old) }
        ensures { cells.new ≡ wired_cells (own_wires shape k root (starting self.now.starts.items)) cells.old }
    {
        match shape {
            Shape::Variable(x) => join(cells, self.starts[x].unwrap(), root),
            Shape::Number(_) | Shape::Function { .. } | Shape::Pair(_, _) => {
                join(cells, root, First.at(k))
            }
            Shape::Successor(_) | Shape::Application(_, _) => join(cells, root, Second.at(k)),
            Shape::Let { .. } => {}
            Shape::Iterator { .. } => {
                join(cells, root, Second.at(k));
                join(cells, Third.at(k), Second.at(k + 1));
                join(cells, First.at(k + 1), First.at(k + 2));
                join(cells, Third.at(k + 2), Second.at(k + 3));
                join(cells, Third.at(k + 1), Third.at(k + 3));
            }
        }
    }

    // Wires part `i`, whose nodes are numbered from `k` on and whose root goes to the port `root`, and gives the number after its nodes.
    // These three stay apart: as a struct, each call would have to name them, which is no plainer.
    #[cycle(wire_wire_inside)]
    pub(crate) fn wire(
        &mut self,
        parts: &[Part],
        i: usize,
        k: usize,
        root: usize,
        cells: &mut [Cell],
    ) -> usize
        requires { (t : Term) × Wirable parts.now i k root self.old.starts.items (length cells.old) t }
        ensures { (t : Term) → Wirable parts.now i k root self.old.starts.items (length cells.old) t → Wired t k root result self.old.starts.items self.new.starts.items cells.old cells.new }
    {
        let shape = part_at(parts, i).shape;
        self.join_own(shape, k, root, cells);
        match shape {
            Shape::Variable(_) => k,
            Shape::Number(_) => k + 1,
            Shape::Successor(t) => self.wire(parts, t, k + 1, First.at(k), cells),
            Shape::Function { binder, body, .. } => {
                let outer = self.rebind(binder, Some(Third.at(k)));
                let next = self.wire(parts, body, k + 1, Second.at(k), cells);
                self.rebind(binder, outer);
                next
            }
            Shape::Application(t, u) => {
                let next = self.wire(parts, t, k + 1, First.at(k), cells);
                self.wire(parts, u, next, Third.at(k), cells)
            }
            Shape::Pair(t, u) => {
                let next = self.wire(parts, t, k + 1, Second.at(k), cells);
                self.wire(parts, u, next, Third.at(k), cells)
            }
            Shape::Let {
                first,
                second,
                pair,
                body,
            } => {
                let next = self.wire(parts, pair, k + 1, First.at(k), cells);
                let outer = self.rebind(first, Some(Second.at(k)));
                let other = self.rebind(second, Some(Third.at(k)));
                let next = self.wire(parts, body, next, root, cells);
                self.rebind(second, other);
                self.rebind(first, outer);
                next
            }
            Shape::Iterator { count, step, base } => {
                let next = self.wire(parts, count, k + 4, First.at(k), cells);
                let next = self.wire_inside(parts, step, next, First.at(k + 3), cells);
                self.wire_inside(parts, base, next, Second.at(k + 2), cells)
            }
        }
    }

    // Wires a step or a base inside its Transfer nodes, and gives the number after these.
    #[cycle(wire_wire_inside)]
    fn wire_inside(
        &mut self,
        parts: &[Part],
        i: usize,
        k: usize,
        root: usize,
        cells: &mut [Cell],
    ) -> usize
        requires { (t : Term) × Enclosed parts.now i k root self.old.starts.items (length cells.old) t }
        ensures { (t : Term) → Enclosed parts.now i k root self.old.starts.items (length cells.old) t → Passed t k root result self.old.starts.items self.new.starts.items cells.old cells.new }
    {
        let next = self.pass(parts, i, k, cells);
        self.wire(parts, i, k, root, cells);
        next
    }
}
