// Reversible machines, and walks over any of them.
#![tactic(auto)]

mod addition;
mod headings;
mod machines;
mod reasons;
mod strides;
mod sums;
mod walks;
mod worked;

pub use addition::{Addition, Direction};
pub use machines::Machine;
pub use reasons::Reason;
pub use strides::Stride;
pub use walks::{Grant, Probe, Walk};
pub use worked::out_and_back;
