//! Formats and parts: whether a format is inside the limits, and what follows from it: rows, groups, sizes of planes and of memory.
//! Every question is total; its answer is the number that the definitions of `theory` give, for a format outside the limits too.
#![tactic(auto)]

mod announced;
mod format;
mod frame;
mod mode;
mod part;
mod scan;
mod sizes;

pub use announced::SampledKind;
pub use format::Format;
pub use mode::Mode;
pub use part::Part;
pub use scan::Scan;
