//! Picture stores: the one meaning that every store has, and what a part asks of one.
//! A store tells its sizes and its depth, shows a sample and takes one, or a run of one row at once; its picture says what it holds.
//! `Planar` keeps the whole frame of a format in lent words. `Field` shows one field of the frame in any store, and is again a store.
//! A store behind a `&mut` is a store too. A put changes the samples that it names, and in memory nothing but their words.
#![tactic(auto)]

mod field;
mod fitting;
mod loan;
mod planar;
mod run;
mod shape;
mod store;

pub use field::Field;
pub use fitting::fits;
pub use planar::Planar;
pub use store::Store;
