//! A part that is being sent, and what drawing a packet of it leaves.

ghost use Rattle.std.specs.Prelude.{◌≡◌, true};
ghost use Rattle.sender.specs.Fields.{has_field};

use formats::Part;

/// A part on its way, with the sequence number and the first group of its next packet. Each packet takes it and hands it on.
#[derive(Drop)]
pub struct Sending<K> {
    pub(crate) part: Part<K>,
    pub(crate) sequence: u32,
    pub(crate) group: usize,
    ghost allowed: { has_field part.format.scan part.field ≡ true },
}

/// A part that was sent whole.
#[derive(Drop)]
pub struct Sent {
    pub(crate) sequence: u32,
}

/// What drawing a packet leaves.
#[derive(Drop)]
pub enum Step<K> {
    /// A packet of so many octets was written, and the part goes on.
    More(Sending<K>, usize),
    /// The last packet of the part was written, of so many octets.
    Last(Sent, usize),
}

impl Sent {
    /// The sequence number to open the next part with.
    pub fn next_sequence(&self) -> u32
        ensures { result ≡ self.now.sequence }
    {
        self.sequence
    }
}
