//! The entries of a format line, as parts of the line; and whether a line is made of entries at all.

ghost use Rattle.std.specs.Prelude.{◌≡◌};
ghost use Rattle.std.specs.Option.{option_map};
ghost use Rattle.std.specs.Iterator.{YieldsFirstBy, item_count};
ghost use Rattle.std.specs.List.{list_all};
ghost use Rattle.fmtp.specs.Lines.{visible, entry_of, entries, pieces, later_piece, well_formed};
ghost use Rattle.fmtp.specs.Borrowed.{text_of, entries_left, piece_of, pieces_left, with_last};

use crate::texts::{split_at_first, without_blanks};

/// A name alone, or a name and a value, each a part of the line. Two cases, as the project's rule has it, and no name beside an `Option`.
#[derive(Clone, Copy)]
pub enum Entry<'a> {
    Flag(&'a [u8]),
    Pair(&'a [u8], &'a [u8]),
}

impl<'a> Entry<'a> {
    /// The entry that a text is.
    pub fn parse(text: &'a [u8]) -> Option<Entry<'a>>
        ensures { option_map text_of result ≡ entry_of text.now }
    {
        let (name, value) = split_at_first(text, b'=');
        if !all_visible(text) || name.is_empty() {
            return None;
        }
        match value {
            None => Some(Entry::Flag(name)),
            Some([]) => None,
            Some(value) => Some(Entry::Pair(name, value)),
        }
    }

    pub fn name(&self) -> &'a [u8]
        ensures { result.now ≡ (text_of self.now).name }
    {
        match *self {
            Entry::Flag(name) | Entry::Pair(name, _) => name,
        }
    }

    pub fn value(&self) -> Option<&'a [u8]>
        ensures { option_map (λ x. x.now) result ≡ (text_of self.now).value }
    {
        match *self {
            Entry::Flag(_) => None,
            Entry::Pair(_, value) => Some(value),
        }
    }
}

fn all_visible(text: &[u8]) -> bool
    ensures { result ≡ list_all visible text.now }
{
    // fold, since it vectorises: with all, which leaves early, a line of 130 octets takes half as long again to read
    text.iter()
        .fold(true, |all, &octet| all & is_visible(octet))
}

fn is_visible(octet: u8) -> bool
    ensures { result ≡ visible octet }
{
    octet.is_ascii_graphic() && octet != b';'
}

/// The entries of a line, one by one; it ends where the line ends or holds something else.
#[derive(Clone, Copy)]
pub struct Entries<'a> {
    // what stands behind the last semicolon that was passed
    rest: Option<&'a [u8]>,
}

impl<'a> Entries<'a> {
    pub fn of(line: &'a [u8]) -> Entries<'a>
        ensures { entries_left result ≡ entries line.now }
    {
        Entries { rest: Some(line) }
    }
}

impl<'a> Iterator for Entries<'a> {
    type Item = Entry<'a>;

    ghost next_gives = { YieldsFirstBy text_of entries_left };

    ghost remaining = { item_count entries_left };

    // inlined into each walk over a line's entries, of which reading makes some thirty
    #[inline(always)]
    fn next(&mut self) -> Option<Entry<'a>> {
        let (piece, rest) = split_at_first(self.rest.take()?, b';');
        let entry = Entry::parse(without_blanks(piece))?;
        self.rest = rest;
        Some(entry)
    }
}

// What stands between two semicolons of a line.
#[derive(Clone, Copy)]
struct Piece<'a> {
    text: &'a [u8],
    is_last: bool,
}

impl Piece<'_> {
    // Whether the piece is blanks, one at least, and then an entry; the last piece may be blanks alone, or nothing.
    fn is_later(self) -> bool
        ensures { result ≡ later_piece self.entry.is_last self.entry.text.now }
    {
        let text = without_blanks(self.text);
        self.is_last && text.is_empty()
            || text.len() < self.text.len() && Entry::parse(text).is_some()
    }
}

// The pieces of a line. `Entries` does not go by them: what is no entry ends it for good, and a flag for that would say no more.
#[derive(Clone, Copy)]
struct Pieces<'a> {
    // what stands behind the last semicolon that was passed
    rest: Option<&'a [u8]>,
}

impl<'a> Iterator for Pieces<'a> {
    type Item = Piece<'a>;

    ghost next_gives = { YieldsFirstBy piece_of pieces_left };

    ghost remaining = { item_count pieces_left };

    fn next(&mut self) -> Option<Piece<'a>> {
        let (text, rest) = split_at_first(self.rest?, b';');
        self.rest = rest;
        Some(Piece {
            text,
            is_last: rest.is_none(),
        })
    }
}

/// Whether a line is empty, or entries with their separators and nothing else.
pub fn is_well_formed(line: &[u8]) -> bool
    ensures { result ≡ well_formed line.now }
{
    let (first, rest) = split_at_first(line, b';');
    line.is_empty()
        || Entry::parse(first).is_some() && Pieces { rest }.all(|piece| piece.is_later())
}
