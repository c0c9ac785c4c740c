//! Opening a part, and drawing its packets from a store.

ghost use Rattle.std.specs.Prelude.{◌≡◌, ℕ, List, [], ◌∷◌, ◌++◌, length, take};
ghost use Rattle.formats.specs.Meaning.{part_of};
ghost use Rattle.theory.specs.Cutting.{buffer_after, whole_part};
ghost use Rattle.sender.specs.Drawing.{state_of, opening, answered, step_of, stepped, drawing};
ghost use Rattle.sender.specs.Plans.{Drew, after_written};
ghost use Rattle.sender.specs.Wholes.{Drawn, IfLast};

use crate::plan::Plan;
use crate::sending::{Sending, Sent, Step};
use crate::source::Source;
use formats::{Format, Part};
use kinds::GroupKind;
use refusals::Refusal;
use stores::Store;

/// A packet that was written: how many octets it has, and the first group of the next one, or none where it is the last of its part.
#[derive(Clone, Copy)]
pub(crate) struct Written {
    pub(crate) octets: usize,
    pub(crate) next: Option<usize>,
}

impl<K: GroupKind + Copy> Sending<K> {
    /// A part before its first packet, which has this sequence number: refusal 4 outside the limits, then 5 for a field that the format
    /// does not have.
    // Format, timestamp and field are what an opening names, by the project's rule.
    pub fn open(
        format: Format<K>,
        timestamp: u32,
        field: u8,
        sequence: u32,
    ) -> Result<Sending<K>, Refusal>
        ensures { answered result ≡ opening K.GroupKind.kind format timestamp field sequence }
    {
        let part = Part {
            format,
            timestamp,
            field,
        };
        part.check()?;
        Ok(Sending {
            part,
            sequence,
            group: 0,
        })
    }

    /// Writes the next packet at the start of a buffer; every octet behind it stays. Refusal 4 outside the limits, then 6 for a store
    /// unlike the part, then 19 for a buffer shorter than the packet: the buffer stays, and the part is handed back as it was.
    pub fn next<S: Store>(
        self,
        store: &S,
        buffer: &mut [u8],
    ) -> Result<Step<K>, (Sending<K>, Refusal)>
        ensures answer { stepped result ≡ drawing K.GroupKind.kind (S.Store.picture store.now) (state_of self) (length buffer.old) }
        ensures buffer { buffer.new ≡ buffer_after (part_of K.GroupKind.kind self.part) (S.Store.picture store.now) self.sequence self.group buffer.old }
        ensures whole { let t = part_of K.GroupKind.kind self.part in let v = S.Store.picture store.now in IfLast result (λ n. (first : ℕ) (packets : List (List ℕ)) → Drawn t v first packets self.sequence self.group → packets ++ (take n buffer.new ∷ []) ≡ whole_part t v first) }
    {
        match self.draw(store, buffer) {
            Ok(written) => Ok(self.after(written)),
            Err(refusal) => Err((self, refusal)),
        }
    }

    // Writes the next packet.
    fn draw<S: Store>(&self, store: &S, buffer: &mut [u8]) -> Result<Written, Refusal>
        ensures answer { Drew (part_of K.GroupKind.kind self.now.part) (S.Store.picture store.now) self.now.sequence self.now.group (length buffer.old) result }
        ensures buffer { buffer.new ≡ buffer_after (part_of K.GroupKind.kind self.now.part) (S.Store.picture store.now) self.now.sequence self.now.group buffer.old }
    {
        let source = Source::new(&self.part, store)?;
        let plan = Plan::at(source, self.group);
        let octets = plan.octets();
        if buffer.len() < octets {
            return Err(Refusal::BufferTooShort);
        }
        plan.write(self.sequence, &mut buffer[..octets]);
        Ok(Written {
            octets,
            next: plan.next(),
        })
    }

    // The state behind a packet.
    fn after(self, written: Written) -> Step<K>
        ensures { step_of result ≡ after_written (state_of self) written }
    {
        let Written { octets, next } = written;
        let sequence = self.sequence.wrapping_add(1);
        // Each field by name: a struct with a ghost field takes no `..self`.
        match next {
            Some(group) => Step::More(
                Sending {
                    part: self.part,
                    sequence,
                    group,
                },
                octets,
            ),
            None => Step::Last(Sent { sequence }, octets),
        }
    }
}
