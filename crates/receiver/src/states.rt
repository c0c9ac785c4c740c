//! The states of a receiver: without a part, and with one open.

ghost use Rattle.std.specs.Prelude.{◌≡◌, true, is_ok};
ghost use Rattle.formats.specs.Meaning.{part_of};
ghost use Rattle.refusals.specs.Numbers.{numbered};
ghost use Rattle.stores.specs.Keeping.{IfRefused};
ghost use Rattle.theory.specs.Answers.{verdict};
ghost use Rattle.theory.specs.Octets.{AllOctets};
ghost use Rattle.theory.specs.Taking.{open_refusal, map_after_opening, count_refusal, survey_refusal, offer_answer, picture_after, map_after, count_answer, survey_answer};
ghost use Rattle.receiver.specs.Opening.{opening, outcome, part_open, part_with};
ghost use Rattle.receiver.specs.Histories.{Begins, LawHolds, CountsUnnamed, SurveysUnnamed};

use crate::map::{clear_bits, reset};
use crate::segment::put_segment;
use formats::{Format, Part};
use kinds::GroupKind;
use packets::Packet;
use refusals::Refusal;
use stores::{Store, fits};

/// A receiver without a part: it can only open one.
#[derive(Drop)]
pub struct Idle;

/// A receiver with a part open.
#[derive(Drop)]
pub struct Open<K> {
    part: Part<K>,
}

impl Idle {
    /// Opens a part, and clears the octets of the map that it needs: refusal 4 for the format, 5 for the field, 6 for a map that is too
    /// short. A refusal hands the receiver back. An opening begins a run, over every picture.
    // Format, timestamp and field are what an opening names, by the project's rule.
    pub fn open<K: GroupKind + Drop>(
        self,
        format: Format<K>,
        timestamp: u32,
        field: u8,
        map: &mut [u8],
    ) -> Result<Open<K>, (Idle, Refusal)>
        ensures answer { outcome K.GroupKind.kind result ≡ opening (part_with K.GroupKind.kind format timestamp field) map.old }
        ensures map { map.new ≡ map_after_opening (part_with K.GroupKind.kind format timestamp field) map.old }
        ensures run { is_ok result ≡ true → Begins (part_with K.GroupKind.kind format timestamp field) map.old map.new }
    {
        let part = Part {
            format,
            timestamp,
            field,
        };
        check_opening(&part, map).map_err(|refusal| (self, refusal))?;
        reset(map, part.map_octets());
        Ok(Open { part })
    }
}

impl<K: GroupKind> Open<K> {
    /// Takes a packet: puts each group that it names and whose bit is clear into the store, sets the bit, and answers how many these are.
    /// Refusal 4 for the format, 6 for a store unlike the part or a map that is too short, then 7 to 18 for the packet.
    pub fn take<S: Store>(
        &self,
        packet: &[u8],
        store: &mut S,
        map: &mut [u8],
    ) -> Result<usize, Refusal>
        ensures answer { numbered result ≡ offer_answer (part_open K.GroupKind.kind self.now) (S.Store.picture store.old) map.old packet.now }
        ensures picture { S.Store.picture store.new ≡ picture_after (part_open K.GroupKind.kind self.now) (S.Store.picture store.old) map.old packet.now }
        ensures map { map.new ≡ map_after (part_open K.GroupKind.kind self.now) (S.Store.picture store.old) map.old packet.now }
        ensures rest { S.Store.rest store.new ≡ S.Store.rest store.old }
        ensures kept { IfRefused result ((store.new ≡ store.old) × (map.new ≡ map.old)) }
    {
        self.check(store, map)?;
        let packet = Packet::read(packet, &self.part)?;
        // A sum by hand: putting a segment changes store and map, and a chain's closure that changes what it holds leaves its result unknown.
        let mut count = 0;
        for segment in packet.iter() {
            count += put_segment(&self.part, segment, store, map);
        }
        Ok(count)
    }

    /// How many groups of the part are missing, by the octets of the map: refusal 4 for the format, 6 for a map that is too short.
    pub fn missing(&self, map: &[u8]) -> Result<usize, Refusal>
        ensures answer { numbered result ≡ count_answer (part_open K.GroupKind.kind self.now) map.now }
        ensures law { CountsUnnamed (part_open K.GroupKind.kind self.now) map.now (numbered result) }
    {
        self.check_map(map)?;
        Ok(clear_bits(map, self.part.groups()))
    }

    /// How many groups of the part are missing, with the store at hand: refusal 4 for the format, 6 for a store unlike the part or a map
    /// that is too short. Whatever calls led here, picture, map and answers keep the law of runs.
    pub fn survey<S: Store>(&self, store: &S, map: &[u8]) -> Result<usize, Refusal>
        ensures answer { numbered result ≡ survey_answer (part_open K.GroupKind.kind self.now) (S.Store.picture store.now) map.now }
        ensures law { LawHolds (part_open K.GroupKind.kind self.now) (S.Store.picture store.now) map.now }
        ensures count { SurveysUnnamed (part_open K.GroupKind.kind self.now) (S.Store.picture store.now) map.now (numbered result) }
    {
        self.check(store, map)?;
        Ok(clear_bits(map, self.part.groups()))
    }

    /// Closes the part.
    pub fn close(self) -> Idle
    where
        K: Drop,
        ensures { result ≡ record {} }
    {
        Idle
    }

    // Refusal 4, then 6 for the store or the map.
    fn check<S: Store>(&self, store: &S, map: &[u8]) -> Result<(), Refusal>
        ensures answer { numbered result ≡ verdict (survey_refusal (part_open K.GroupKind.kind self.now) (S.Store.picture store.now) map.now) }
        ensures octets { AllOctets map.now }
    {
        self.check_map(map)?;
        if !fits(&self.part, store) {
            return Err(Refusal::StoreOrMapUnfit);
        }
        Ok(())
    }

    // Refusal 4, then 6 for the map.
    fn check_map(&self, map: &[u8]) -> Result<(), Refusal>
        ensures answer { numbered result ≡ verdict (count_refusal (part_open K.GroupKind.kind self.now) map.now) }
        ensures octets { AllOctets map.now }
    {
        self.part.format.check()?;
        if map.len() < self.part.map_octets() {
            return Err(Refusal::StoreOrMapUnfit);
        }
        Ok(())
    }
}

// Refusal 4 for the format, 5 for the field, 6 for the map.
fn check_opening<K: GroupKind>(part: &Part<K>, map: &[u8]) -> Result<(), Refusal>
    ensures answer { numbered result ≡ verdict (open_refusal (part_of K.GroupKind.kind part.now) map.now) }
    ensures octets { AllOctets map.now }
{
    part.check()?;
    if map.len() < part.map_octets() {
        return Err(Refusal::StoreOrMapUnfit);
    }
    Ok(())
}
