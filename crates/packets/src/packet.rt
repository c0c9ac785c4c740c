//! A packet that is not refused, and its segments. Both borrow the packet's octets.

/// A packet for a part, with the numbers of the part's groups. Only reading makes one.
#[derive(Clone, Copy)]
pub struct Packet<'a> {
    pub(crate) octets: &'a [u8],
    pub(crate) group_octets: usize,
    pub(crate) group_columns: usize,
    pub(crate) group_rows: usize,
}

/// A segment: that part of the packet, and its place in the part of the stream.
#[derive(Clone, Copy)]
pub struct Segment<'a> {
    pub octets: &'a [u8],
    pub unit_row: usize,
    pub first_group: usize,
    pub groups: usize,
}
