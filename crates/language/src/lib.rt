// From text to checked program: what a text must be to be accepted, and what it is refused with else.
#![tactic(auto)]

mod check;
mod checker;
mod conclude;
mod context;
pub mod counts;
mod facts;
mod measure;
pub mod program;
mod rules;
mod table;
mod types;
pub mod typing;
pub mod workspace;
