// Names: what binding, entering, using and leaving does to them.
ghost use Rattle.std.specs.Prelude.{◌≡◌, ◌<◌, ◌≤◌, length};
ghost use Rattle.syntax.specs.Names.{among, fault as fault_at, sooner as soonest, binder_of};
ghost use Rattle.syntax.specs.Scopes.{declare as declared, enter as entered, occur as occurred, settle as settled, note as noted, shut};
ghost use Rattle.syntax.specs.Held.{spelled, names_of, binders_of};
ghost use Rattle.syntax.specs.Steps.{binder_at};

use crate::names::Binder;
use crate::refusal::{Fault, Refusal};
use crate::scope::{InForce, Name, Scope};
use arrayvec::ArrayVec;

fn copied(word: &[u8]) -> Name
    requires { length word.now ≤ 16 }
    ensures { spelled result ≡ word.now }
{
    ArrayVec::try_from(word).unwrap()
}

// The one that goes first, of a refusal and perhaps another: the `min` of two Options would prefer none.
#[tactic(auto, using(crate::proofs::Order::less_before))]
fn sooner(a: Refusal, other: Option<Refusal>) -> Option<Refusal>
    ensures { result ≡ soonest a other }
{
    Some(other.map_or(a, |b| b.min(a)))
}

impl Scope {
    // A fault is met: the one that goes first is kept.
    fn note(&mut self, fault: Fault, place: usize)
        ensures { names_of self.new ≡ noted (fault_at fault place) (names_of self.old) }
    {
        self.least = sooner(Refusal { fault, place }, self.least);
    }

    // Was this name bound before?
    fn binds(&self, word: &[u8]) -> bool
        ensures { result ≡ among word.now (names_of self.now).bound }
    {
        self.bound.iter().any(|name| name.as_slice() == word)
    }

    // A binder is met in the text: its name may be bound only once.
    pub(crate) fn declare(&mut self, binder: Binder)
        requires { length self.old.bound.items < 4096 }
        ensures { names_of self.new ≡ declared (binder_at binder.entry) (names_of self.old) }
    {
        if self.binds(binder.name) {
            self.note(Fault::BoundTwice, binder.place);
        }
        self.bound.push_reserved(copied(binder.name));
    }

    // It comes into force.
    pub(crate) fn enter(&mut self, binder: Binder)
        requires { length self.old.in_force.items < 256 }
        ensures { names_of self.new ≡ entered (binder_at binder.entry) (names_of self.old) }
    {
        self.in_force.push_reserved(InForce {
            place: binder.place,
            name: copied(binder.name),
            used: false,
        });
    }

    // A name occurs: the place of its binder, or its own where it has none.
    pub(crate) fn occur(&mut self, place: usize, word: &[u8]) -> usize
        ensures names { names_of self.new ≡ occurred place word.now (names_of self.old) }
        ensures binder { result ≡ binder_of word.now (binders_of (names_of self.old).force) place }
    {
        let met = self
            .in_force
            .iter()
            .rposition(|name| name.name.as_slice() == word);
        let Some(i) = met else {
            self.note(Fault::Unbound, place);
            return place;
        };
        let name = &self.in_force[i];
        let binder = name.place;
        if name.used {
            self.note(Fault::UsedTwice, place);
        } else {
            self.in_force[i].used = true;
        }
        binder
    }

    // Names that go out of force have to be used.
    pub(crate) fn settle(&mut self, before: usize)
        ensures { names_of self.new ≡ settled before (names_of self.old) }
    {
        let own = self.in_force.get(before..).unwrap_or(&[]);
        let idle = own.iter().filter(|name| !name.used);
        self.least = idle.fold(self.least, |least, name| {
            sooner(
                Refusal {
                    fault: Fault::Unused,
                    place: name.place,
                },
                least,
            )
        });
    }
}

// Puts the height of the names in force back on every way out.
pub(crate) struct Guard<'a>(pub(crate) &'a mut Scope, pub(crate) usize);

impl Drop for Guard<'_> {
    fn drop(self)
        ensures { names_of self.exit.0.now ≡ shut self.entry.1 (names_of self.entry.0.now) }
    {
        let Guard(scope, before) = self;
        scope.in_force.truncate(before);
    }
}
