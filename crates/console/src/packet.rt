//! A packet as it is given to the program.

/// The part that a packet is read for, and its octets in hex.
#[derive(Clone, Copy)]
pub struct Given<'a> {
    pub timestamp: u32,
    pub field: u8,
    pub hex: &'a str,
}

impl<'a> Given<'a> {
    /// The words of a command: the part's timestamp and field, and the packet in hex.
    pub fn parse(words: &'a str) -> Option<Given<'a>> {
        let (timestamp, rest) = words.split_once(' ')?;
        let (field, hex) = rest.split_once(' ')?;
        Some(Given {
            timestamp: timestamp.parse::<u32>().ok()?,
            field: field.parse::<u8>().ok()?,
            hex,
        })
    }
}
