// The calls that a host makes: text to network to walk, lists of calls performed on a walk, and listings.
#![tactic(auto)]

mod ends;
mod listing;
mod memory;
mod opening;
mod performing;
mod refusals;
mod stages;
mod worked;

pub use ends::End;
pub use listing::{LINE, Listing, line_buffer, show_outcome};
pub use memory::{Memory, Reserve};
pub use opening::open;
pub use performing::perform;
pub use refusals::{Refused, write_refused};
pub use stages::Stage;
pub use worked::known_outcomes;
pub use writer::show_text;
