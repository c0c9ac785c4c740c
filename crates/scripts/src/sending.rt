//! Drawing the packets of a part.

use anyhow::anyhow;
use formats::Part;
use kinds::GroupKind;
use refusals::Refusal;
use sender::{Sending, Sent, Step};
use stores::Store;

/// The most octets that a packet has.
pub const MOST_OCTETS: usize = 1452;

/// Draws the packets of a part from a store, the first with this sequence number, and gives each of them away. Answers the part that was
/// sent, or why a call refused.
pub fn draw_all<K: GroupKind + Copy, S: Store, F: FnMut(&[u8]) -> anyhow::Result<()>>(
    part: &Part<K>,
    store: &S,
    sequence: u32,
    mut give: F,
) -> anyhow::Result<Result<Sent, Refusal>>
    requires { F.IsAlwaysCallable give }
{
    let mut buffer = [0; MOST_OCTETS];
    let mut sending = match Sending::open(part.format, part.timestamp, part.field, sequence) {
        Ok(sending) => sending,
        Err(refusal) => return Ok(Err(refusal)),
    };
    // Each packet has a group at least, so these are packets enough.
    for _ in 0..part.groups() {
        match sending.next(store, &mut buffer) {
            Ok(Step::More(rest, length)) => {
                give(&buffer[..length.min(MOST_OCTETS)])?;
                sending = rest;
            }
            Ok(Step::Last(sent, length)) => {
                give(&buffer[..length.min(MOST_OCTETS)])?;
                return Ok(Ok(sent));
            }
            Err((_, refusal)) => return Ok(Err(refusal)),
        }
    }
    Err(anyhow!("more packets than groups"))
}
