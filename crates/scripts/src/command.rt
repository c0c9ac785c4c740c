//! The commands of a script, one a line: words that blanks part.

use formats::{Format, Part};
use reports::Stream;

/// How a store keeps its frame.
#[derive(Clone, Copy)]
pub enum Layout {
    Planar,
    Packed,
}

/// A sample's place in a picture.
#[derive(Clone, Copy)]
pub struct Place {
    pub plane: usize,
    pub row: usize,
    pub column: usize,
}

/// Which part of a stream is meant.
#[derive(Clone, Copy)]
pub struct PartName {
    pub timestamp: u32,
    pub field: u8,
}

impl PartName {
    /// That part of a format's stream.
    pub fn of<K: Copy>(self, format: &Format<K>) -> Part<K> {
        Part {
            format: *format,
            timestamp: self.timestamp,
            field: self.field,
        }
    }
}

#[derive(Clone, Copy)]
pub enum Command<'a> {
    /// Both moves, from beginning to end.
    Demo,
    /// How long a frame takes, sent and taken.
    Time,
    /// Begins a stream with a format line.
    Format(Stream, &'a str),
    /// Reads a packet in hex for a part.
    Read(PartName, &'a str),
    /// A new store for the frame.
    Store(Layout),
    /// Puts a ramp into the store.
    Ramp,
    /// Shows a sample.
    Show(Place),
    /// Puts a sample.
    Put(Place, u16),
    /// Sends a part, from this sequence number on.
    Send(PartName, u32),
    /// Opens a part, to receive it.
    Open(PartName),
    /// Offers a packet in hex.
    Packet(&'a str),
    /// Counts the missing groups.
    Count,
    /// Closes the part.
    Close,
}

impl<'a> Command<'a> {
    /// The command of a line, and none of an empty line or a remark; or how a line should read that is no command.
    pub fn parse(line: &'a str) -> Result<Option<Command<'a>>, &'static str> {
        let (name, words) = first_word(line);
        let command = match name {
            "" | "#" => return Ok(None),
            "demo" => Command::Demo,
            "time" => Command::Time,
            "format" => format_of(words).ok_or("format PAYLOAD-TYPE SSRC FORMAT-LINE")?,
            "read" => read_of(words).ok_or("read TIMESTAMP FIELD HEX")?,
            "store" => store_of(words).ok_or("store planar, or store packed")?,
            "ramp" => Command::Ramp,
            "show" => show_of(words).ok_or("show PLANE ROW COLUMN")?,
            "put" => put_of(words).ok_or("put PLANE ROW COLUMN VALUE")?,
            "send" => send_of(words).ok_or("send TIMESTAMP FIELD SEQUENCE-NUMBER")?,
            "open" => open_of(words).ok_or("open TIMESTAMP FIELD")?,
            "packet" => Command::Packet(words),
            "count" => Command::Count,
            "close" => Command::Close,
            _ => {
                return Err(
                    "demo, time, format, read, store, ramp, show, put, send, open, packet, count or close",
                );
            }
        };
        Ok(Some(command))
    }

    /// Whether a format is all that the command wants.
    pub fn is_for_stream(&self) -> bool {
        matches!(self, Command::Read(_, _) | Command::Store(_))
    }

    /// Whether the command is for a store.
    pub fn is_for_store(&self) -> bool {
        matches!(
            self,
            Command::Ramp
                | Command::Show(_)
                | Command::Put(_, _)
                | Command::Send(_, _)
                | Command::Open(_)
        )
    }

    /// Whether the command can be done while a part is open, and leaves it open or closes it.
    pub fn is_for_part(&self) -> bool {
        matches!(
            self,
            Command::Packet(_)
                | Command::Count
                | Command::Show(_)
                | Command::Put(_, _)
                | Command::Close
        )
    }
}

// The word before the first blank, and what stands behind it.
fn first_word(text: &str) -> (&str, &str) {
    text.split_once(' ').unwrap_or((text, ""))
}

fn part_of(timestamp: &str, field: &str) -> Option<PartName> {
    Some(PartName {
        timestamp: timestamp.parse::<u32>().ok()?,
        field: field.parse::<u8>().ok()?,
    })
}

// A place, and what stands behind it.
fn place_of(words: &str) -> Option<(Place, &str)> {
    let (plane, words) = first_word(words);
    let (row, words) = first_word(words);
    let (column, rest) = first_word(words);
    let place = Place {
        plane: plane.parse::<usize>().ok()?,
        row: row.parse::<usize>().ok()?,
        column: column.parse::<usize>().ok()?,
    };
    Some((place, rest))
}

fn format_of(words: &str) -> Option<Command<'_>> {
    let (payload_type, words) = first_word(words);
    let (ssrc, line) = first_word(words);
    let stream = Stream {
        payload_type: payload_type.parse::<u8>().ok()?,
        ssrc: ssrc.parse::<u32>().ok()?,
    };
    Some(Command::Format(stream, line))
}

fn read_of(words: &str) -> Option<Command<'_>> {
    let (timestamp, words) = first_word(words);
    let (field, hex) = first_word(words);
    Some(Command::Read(part_of(timestamp, field)?, hex))
}

fn store_of(words: &str) -> Option<Command<'_>> {
    match words {
        "planar" => Some(Command::Store(Layout::Planar)),
        "packed" => Some(Command::Store(Layout::Packed)),
        _ => None,
    }
}

fn show_of(words: &str) -> Option<Command<'_>> {
    let (place, rest) = place_of(words)?;
    rest.is_empty().then_some(Command::Show(place))
}

fn put_of(words: &str) -> Option<Command<'_>> {
    let (place, value) = place_of(words)?;
    Some(Command::Put(place, value.parse::<u16>().ok()?))
}

fn send_of(words: &str) -> Option<Command<'_>> {
    let (timestamp, words) = first_word(words);
    let (field, sequence) = first_word(words);
    Some(Command::Send(part_of(timestamp, field)?, sequence.parse::<u32>().ok()?))
}

fn open_of(words: &str) -> Option<Command<'_>> {
    let (timestamp, field) = first_word(words);
    Some(Command::Open(part_of(timestamp, field)?))
}
