//! The reader of one packet for a part: why the packet is refused, or which segments it carries. It copies nothing.
//! Reading is total, for any octets and any part. It answers the first row of the refusal table that holds, or the packet;
//! the packet answers its marker and its segments, each as that part of the octets with its place.
//! A packet that is not refused names groups of the part only, each at most once, and all their octets lie in it.
#![tactic(auto)]

mod fields;
mod headers;
mod offer;
mod packet;
mod reader;
mod row_header;
mod segments;

pub use packet::{Packet, Segment};
pub use segments::Segments;
