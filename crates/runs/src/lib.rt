// Whole runs of walks: what may be read of a machine, and lists of calls performed on a walk.
#![tactic(auto)]

mod calls;
mod performing;
mod readings;

pub use calls::{Answer, Call};
pub use performing::perform;
pub use readings::{NoQuery, Readable};
