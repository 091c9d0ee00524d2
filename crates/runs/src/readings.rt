ghost use Rattle.std.specs.Prelude.{◌≡◌, ℕ, ℤ, IfOk};

use machine::{Addition, Machine, Stride};
use std::alloc::{AllocError, Global};

// A machine of which a walk can read: each reading is a function of the machine's state and the walk's sum.
pub trait Readable: Machine {
    // What may be asked for.
    type Query;
    // Room for a reply, made before anything moves.
    type Room: Drop;

    type Reply: Drop;

    // What a reply says, whatever memory it is held in.
    ghost Told: { Type 0 };

    ghost told: { Self.Reply → Told };

    // The reading that a query asks for, at the walk's sum.
    ghost reading: { Self → ℤ → Self.Query → Told };

    // This room is enough for this query.
    ghost fits: { Self.Query → Self.Room → Type 0 };

    // Makes the room that a reply to the query needs.
    fn room(query: &Self::Query, heap: Global) -> Result<Self::Room, AllocError>
        ensures { IfOk result (fits query.now) };

    // Gives the reading in that room: the same for every machine that stands at this state.
    fn reply(&self, sum: i64, query: &Self::Query, room: Self::Room) -> Self::Reply
        requires { fits query.now room }
        ensures { (m : Self) → Self.Machine.state m ≡ Self.Machine.state self.now → told result ≡ reading m sum query.now };
}

// The one reading is the two numbers.
impl Readable for Addition {
    type Query = ();

    type Room = ();

    type Reply = (u32, u32);

    ghost Told = { ℕ × ℕ };

    ghost told = { λ r. r };

    ghost reading = { λ m s q. (m.a, m.b) };

    ghost fits = { λ q x. Unit {0} };

    fn room(query: &(), heap: Global) -> Result<(), AllocError>
        ensures { IfOk result (λ x. Unit {0}) }
    {
        Ok(())
    }

    fn reply(&self, sum: i64, query: &(), room: ()) -> (u32, u32) {
        (self.a, self.b)
    }
}

// The query of a machine that is not read: its field is private, so no other crate can make one, and none is made here.
#[derive(Drop)]
pub struct NoQuery {
    unmade: (),
}

impl<M: Machine> Readable for Stride<M> {
    type Query = NoQuery;

    type Room = ();

    type Reply = ();

    ghost Told = { Unit {0} };

    ghost told = { λ r. r };

    ghost reading = { λ m s q. tt };

    ghost fits = { λ q x. Unit {0} };

    fn room(query: &NoQuery, heap: Global) -> Result<(), AllocError>
        ensures { IfOk result (λ x. Unit {0}) }
    {
        Ok(())
    }

    fn reply(&self, sum: i64, query: &NoQuery, room: ()) {}
}
