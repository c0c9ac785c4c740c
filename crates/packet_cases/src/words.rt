//! The words of a row, which blanks part.

/// What of a row is still to be read. Behind its last word there are only empty words.
#[derive(Drop)]
pub struct Words<'a> {
    rest: &'a [u8],
}

impl<'a> Words<'a> {
    pub fn of(row: &'a [u8]) -> Words<'a> {
        Words { rest: row }
    }

    // The word in front of the first blank; what stands behind the blank is left.
    fn next(&mut self) -> &'a [u8] {
        let row = self.rest;
        let end = row
            .iter()
            .position(|octet| *octet == b' ')
            .unwrap_or(row.len());
        self.rest = row.get(end + 1..).unwrap_or(&[]);
        &row[..end]
    }

    /// The next word's first letter; 0 where there is none.
    pub fn letter(&mut self) -> u8 {
        self.next().first().copied().unwrap_or(0)
    }

    /// The next word as a decimal number.
    pub fn number(&mut self) -> u32 {
        self.next().iter().fold(0, |number: u32, digit| {
            let value = u32::from(digit.wrapping_sub(b'0'));
            number.wrapping_mul(10).wrapping_add(value)
        })
    }

    /// The next word's octets, two hexadecimal digits each, at the front of `octets`; how many there are.
    pub fn octets(&mut self, octets: &mut [u8]) -> usize {
        let pairs = self.next().chunks_exact(2);
        let count = pairs.len().min(octets.len());
        for (octet, pair) in octets.iter_mut().zip(pairs) {
            if let [high, low] = pair {
                *octet = digit_of(*high)
                    .wrapping_mul(16)
                    .wrapping_add(digit_of(*low));
            }
        }
        count
    }
}

fn digit_of(letter: u8) -> u8 {
    if letter >= b'a' {
        letter.wrapping_sub(b'a').wrapping_add(10)
    } else {
        letter.wrapping_sub(b'0')
    }
}
