//! The receiver: it opens a part, takes its packets into a picture store, and counts the groups that are missing.
//! What has arrived is kept in the caller's arrival map, a bit for each group: a group is taken once, and a later packet leaves it as it is.
//! Each call answers its result or the first refusal of the table that holds; a refused call leaves all memory as it was.
//! `survey` carries the law of runs: what picture, map and answers are after any calls on an open part.
#![tactic(auto)]

mod group;
mod map;
mod segment;
mod states;

pub use states::{Idle, Open};
