//! What a picture store is.

ghost use Rattle.std.specs.Prelude.{◌≡◌, length};
ghost use Rattle.refusals.specs.Numbers.{numbered};
ghost use Rattle.theory.specs.Pictures.{Picture, LawfulPicture, show_answer, put_answer, put_after, show_row_answer, show_row_after, put_row_answer, put_row_after};
ghost use Rattle.stores.specs.Keeping.{IfRefused};

use crate::run::all_fit;
use crate::shape::PlaneSize;
use refusals::Refusal;

/// A picture that is shown and taken sample by sample, or a run of one row at once, all of it or nothing. Telling and showing change nothing.
// Plane, row and column stay three numbers: callers of every crate above pass them so, and a struct would ask more of them.
pub trait Store {
    /// The picture: sizes, depth, and one number at each plane, row and column inside.
    ghost picture: { Self → Picture };

    /// Depth 1 to 16, samples below 2^depth, and 0 of every other plane and place.
    // Data above the calls, and no law below them: a law says the same, and the proofs that cite it would name it apart from the picture.
    ghost lawful: { (x : Self) → LawfulPicture (picture x) };

    /// What no put changes, whether it is taken or refused: whose memory it is, how it is laid out, and what of it is no sample.
    ghost Rest: { Type 0 };

    ghost rest: { Self → Rest };

    /// The number of planes.
    fn planes(&self) -> usize
        ensures { result ≡ (picture self.now).planes };

    /// Columns of a plane; 0 of any other.
    fn width(&self, plane: usize) -> usize
        ensures { result ≡ (picture self.now).width plane };

    /// Rows of a plane; 0 of any other.
    fn height(&self, plane: usize) -> usize
        ensures { result ≡ (picture self.now).height plane };

    /// Bits of a sample.
    fn depth(&self) -> u8
        ensures { result ≡ (picture self.now).depth };

    /// The sample at a place; refusal 1 where there is no such place.
    fn show(&self, plane: usize, row: usize, column: usize) -> Result<u16, Refusal>
        ensures { numbered result ≡ show_answer (picture self.now) plane row column };

    /// Makes the sample at a place this value; refusal 1 where there is no such place, then 2 where the value is not below 2^depth.
    fn put(&mut self, plane: usize, row: usize, column: usize, value: u16) -> Result<(), Refusal>
        ensures answer { numbered result ≡ put_answer (picture self.old) plane row column value }
        ensures picture { picture self.new ≡ put_after (picture self.old) plane row column value }
        ensures rest { rest self.new ≡ rest self.old }
        ensures kept { IfRefused result (self.new ≡ self.old) };

    /// Shows the samples of a row from a column on, one for each word; refusal 1 where one of the places is not there, and the words stay.
    fn show_row(
        &self,
        plane: usize,
        row: usize,
        column: usize,
        samples: &mut [u16],
    ) -> Result<(), Refusal>
        ensures answer { numbered result ≡ show_row_answer (picture self.now) plane row column (length samples.old) }
        ensures samples { samples.new ≡ show_row_after (picture self.now) plane row column samples.old }
    {
        let size = PlaneSize {
            width: self.width(plane),
            height: self.height(plane),
        };
        if !size.has_columns(row, column, samples.len()) {
            return Err(Refusal::NoSuchPlace);
        }
        for (i, sample) in samples.iter_mut().enumerate() {
            *sample = self.show(plane, row, column + i)?;
        }
        Ok(())
    }

    /// Makes the samples of a row from a column on these values; refusal 1 where one of the places is not there, then 2 where a value is not
    /// below 2^depth, and the store stays.
    fn put_row(
        &mut self,
        plane: usize,
        row: usize,
        column: usize,
        samples: &[u16],
    ) -> Result<(), Refusal>
        ensures answer { numbered result ≡ put_row_answer (picture self.old) plane row column samples.now }
        ensures picture { picture self.new ≡ put_row_after (picture self.old) plane row column samples.now }
        ensures rest { rest self.new ≡ rest self.old }
        ensures kept { IfRefused result (self.new ≡ self.old) }
    {
        let size = PlaneSize {
            width: self.width(plane),
            height: self.height(plane),
        };
        if !size.has_columns(row, column, samples.len()) {
            return Err(Refusal::NoSuchPlace);
        }
        if !all_fit(samples, self.depth()) {
            return Err(Refusal::ValueTooLarge);
        }
        for (i, sample) in samples.iter().enumerate() {
            self.put(plane, row, column + i, *sample)?;
        }
        Ok(())
    }
}
