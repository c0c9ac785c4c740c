//! The packed picture store: a frame in lent octets, as they stand on the wire, so that a group's octets are there as they are sent.
//! It is made of a format and keeps plain copies of what the format's kind tells, so that it is one type for every kind.
//! A put changes the bits of its sample and no other; fill and the octets behind the frame stay.
#![tactic(auto)]

mod bits;
mod frame;
mod grid;
mod packed;

pub use packed::Packed;
