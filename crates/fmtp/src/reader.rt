//! Reads a format line: the checks, each over the whole line, and the record.

ghost use Rattle.std.specs.Prelude.{◌≡◌, ℕ, List, nat_lt, count_by};
ghost use Rattle.std.specs.List.{list_all};
ghost use Rattle.std.specs.Option.{option_map};
ghost use Rattle.refusals.specs.Numbers.{numbered};
ghost use Rattle.fmtp.specs.Borrowed.{text_of, entries_left};
ghost use Rattle.fmtp.specs.Same.{SameParameters};
ghost use Rattle.fmtp.specs.Parameters.{parameter_text, permitted};
ghost use Rattle.fmtp.specs.Reading.{has_name, repeated, entry_in, value_of as parameter_value, flagged, record_of, reading_entries, reading};

use crate::consistency::is_at_odds;
use crate::entries::{Entries, Entry, is_well_formed};
use crate::numbers::frame_rate;
use crate::parameters::{Parameter, is_permitted, max_udp, pixel_aspect, size};
use crate::tokens::{Token, recognised};
use records::Record;
use refusals::Refusal;

/// The longest line that is read, in octets.
pub const MAX_LINE: usize = 1024;

/// The record that a format line announces, or the first check that fails.
/// A line with the same known entries, in any order and among any unknown ones, gets the same answer.
pub fn read(line: &[u8]) -> Result<Record, Refusal>
    ensures answer { numbered result ≡ reading line.now }
    ensures order { (other : List ℕ) → SameParameters line.now other → numbered result ≡ reading other }
{
    if line.len() > MAX_LINE {
        return Err(Refusal::LineTooLong);
    }
    if !is_well_formed(line) {
        return Err(Refusal::EntryMalformed);
    }
    read_entries(Entries::of(line))
}

// The checks of the entries, and the record.
fn read_entries(entries: Entries) -> Result<Record, Refusal>
    ensures { numbered result ≡ reading_entries (entries_left entries.entry) }
{
    if is_repetitive(entries) {
        return Err(Refusal::NameRepeated);
    }
    if !is_all_permitted(entries) {
        return Err(Refusal::ValueNotPermitted);
    }
    let record = record_from(entries).ok_or(Refusal::NameMissing)?;
    if is_at_odds(&record) {
        return Err(Refusal::NamesAtOdds);
    }
    Ok(record)
}

// Whether a known name comes twice.
fn is_repetitive(entries: Entries) -> bool
    ensures { result ≡ repeated (entries_left entries.entry) }
{
    Parameter::all()
        .iter()
        .any(|&parameter| is_twice(entries, parameter))
}

fn is_twice(entries: Entries, parameter: Parameter) -> bool
    ensures { result ≡ nat_lt 1 (count_by (has_name (parameter_text parameter)) (entries_left entries.entry)) }
{
    entries
        .filter(|entry| entry.is_of(parameter))
        .nth(1)
        .is_some()
}

// Whether every known name has a value that it may have.
fn is_all_permitted(mut entries: Entries) -> bool
    ensures { result ≡ list_all permitted (entries_left entries.entry) }
{
    entries.all(|entry| is_permitted(&entry))
}

impl<'a> Entries<'a> {
    // The first entry of a name.
    fn entry_of(mut self, parameter: Parameter) -> Option<Entry<'a>>
        ensures { option_map text_of result ≡ entry_in (entries_left self.entry) parameter }
    {
        self.find(|entry| entry.is_of(parameter))
    }

    // The value of a parameter.
    fn value_of(self, parameter: Parameter) -> Option<&'a [u8]>
        ensures { option_map (λ x. x.now) result ≡ parameter_value parameter (entry_in (entries_left self.entry)) }
    {
        self.entry_of(parameter)?.value()
    }

    // Whether a flag is there.
    fn has(self, flag: Parameter) -> bool
        ensures { result ≡ flagged flag (entry_in (entries_left self.entry)) }
    {
        self.entry_of(flag).is_some()
    }
}

// The record that entries give, unless a required one is missing.
fn record_from(entries: Entries) -> Option<Record>
    ensures { result ≡ record_of (entry_in (entries_left entries.entry)) }
{
    Some(Record {
        sampling: entries.value_of(Parameter::Sampling).and_then(recognised)?,
        depth: entries.value_of(Parameter::Depth).and_then(recognised)?,
        width: entries.value_of(Parameter::Width).and_then(size)?,
        height: entries.value_of(Parameter::Height).and_then(size)?,
        frame_rate: entries.value_of(Parameter::FrameRate).and_then(frame_rate)?,
        colorimetry: entries
            .value_of(Parameter::Colorimetry)
            .and_then(recognised)?,
        packing: entries.value_of(Parameter::Packing).and_then(recognised)?,
        edition: entries.value_of(Parameter::Edition).and_then(recognised)?,
        interlace: entries.has(Parameter::Interlace),
        segmented: entries.has(Parameter::Segmented),
        transfer: entries.value_of(Parameter::Transfer).and_then(recognised),
        range: entries.value_of(Parameter::Range).and_then(recognised),
        max_udp: entries.value_of(Parameter::MaxUdp).and_then(max_udp),
        pixel_aspect: entries
            .value_of(Parameter::PixelAspect)
            .and_then(pixel_aspect),
    })
}
