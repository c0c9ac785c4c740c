//! Sending: a part is opened, and its packets are drawn from a store, one after another.
#![tactic(auto)]

mod cutting;
mod depth;
mod drawing;
mod groups;
mod headers;
mod packing;
mod plan;
mod rows;
mod runs;
mod sending;
mod source;

pub use sending::{Sending, Sent, Step};
