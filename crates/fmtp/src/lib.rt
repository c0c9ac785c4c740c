//! The format line of a stream: the parameters of an `a=fmtp` clause of ST 2110-20.
//! `read` answers the record that a line announces, or the first check that fails; its contract is `reading` of `specs/`.
#![tactic(auto)]

mod consistency;
mod display;
mod entries;
mod numbers;
mod parameters;
mod reader;
mod spellings;
mod texts;
mod tokens;

pub use display::Listing;
pub use reader::{MAX_LINE, read};
