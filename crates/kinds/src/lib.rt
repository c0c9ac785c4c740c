//! Group kinds of ST 2110-20, and the one text that builds a group and takes it apart.
//! A kind answers for each of its depths how a group is laid out, and keeps the laws of a kind.
//! `pack` writes the samples of a group as its octets and `unpack` reads a sample back, for every kind with the laws.
//! Every call is total: what is not of the kind answers 0 or false, and leaves the memory as it was.
#![tactic(auto)]

mod family;
mod kind;
mod packing;
mod standard;

pub use kind::GroupKind;
pub use packing::{pack, pack_into, unpack, unpack_all};
pub use standard::{Key, Rgb, Xyz, Ycc420, Ycc422, Ycc444};
