//! What the programs say of formats, packets and refusals, and how they come from a record to the format of its sampling's kind.
#![tactic(auto)]

mod contents;
mod geometry;
mod reading;
mod refused;
mod task;

pub use contents::Contents;
pub use geometry::Geometry;
pub use reading::Reading;
pub use refused::Refused;
pub use task::{FormatTask, Stream, with_format};
