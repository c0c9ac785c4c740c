//! The whole frame of a format in lent words.

ghost use Rattle.std.specs.Prelude.{◌≡◌, ◌+◌, ◌%◌, ◌^◌, ◌<◌, ◌≤◌, IfOk, length, nat_le};
ghost use Rattle.std.specs.Option.{ok_or};
ghost use Rattle.refusals.specs.Numbers.{numbered};
ghost use Rattle.refusals.specs.declared.Refusal.TheVariants.{NoSuchPlace};
ghost use Rattle.formats.specs.Meaning.{format_of};
ghost use Rattle.stores.specs.Words.{planar_check};
ghost use Rattle.stores.specs.Shapes.{LaidOut, blank, shape_words, shape_over, place_word, first_word};

use crate::run::{all_fit, copy_masked, largest};
use crate::shape::Shape;
use crate::store::Store;
use formats::Format;
use kinds::GroupKind;
use refusals::Refusal;

/// The whole frame of a format in lent words: plane after plane from plane 0, row after row, one word for each sample.
/// A sample is its word's remainder by 2^depth; a put sets the whole word.
#[derive(Drop)]
pub struct Planar<'a> {
    shape: Shape,
    words: &'a mut [u16],
    ghost laid: { LaidOut shape (length words.now) },
}

impl<'a> Planar<'a> {
    ghost use Rattle.stores.specs.Words.{planar_frame};
    ghost use Rattle.stores.specs.Stored.{planar_picture};

    /// Whether these words serve as the store of a format's frame: refusal 4 where the format is outside the limits, then 3 where they are too few.
    pub fn check<K: GroupKind + Copy>(format: &Format<K>, words: &[u16]) -> Result<(), Refusal>
        ensures { numbered result ≡ planar_check (format_of K.GroupKind.kind format.now) (length words.now) }
    {
        format.check()?;
        if words.len() < format.planar_words() {
            return Err(Refusal::MemoryTooShort);
        }
        Ok(())
    }

    /// A store of a format's frame over these words; one without planes, of depth 1, where the check refuses them.
    pub fn new<K: GroupKind + Copy>(format: &Format<K>, words: &'a mut [u16]) -> Planar<'a>
        ensures picture { planar_picture result ≡ planar_frame (format_of K.GroupKind.kind format.now) words.old }
        ensures shape { result.shape ≡ shape_over (format_of K.GroupKind.kind format.now) (length words.old) }
        ensures words { result.words.now ≡ words.old }
        ensures memory { result.words.ghost_name ≡ words.entry.ghost_name }
    {
        let shape = Planar::shape_over(format, words);
        Planar { shape, words }
    }

    // The shape of a store over these words: none where the check refuses them.
    fn shape_over<K: GroupKind + Copy>(format: &Format<K>, words: &[u16]) -> Shape
        ensures { result ≡ shape_over (format_of K.GroupKind.kind format.now) (length words.now) }
    {
        match Planar::check(format, words) {
            Ok(()) => Shape::of_frame(format),
            Err(_) => Shape::none(),
        }
    }

    // The word of a place.
    fn word(&self, plane: usize, row: usize, column: usize) -> Result<usize, Refusal>
        ensures place { result ≡ ok_or (place_word (blank self.now.shape) plane row column) NoSuchPlace }
        ensures within { IfOk result (λ at. at < shape_words self.now.shape) }
    {
        self.first_word(plane, row, column, 1)
    }

    // The word of the first of so many columns of a row.
    fn first_word(
        &self,
        plane: usize,
        row: usize,
        column: usize,
        count: usize,
    ) -> Result<usize, Refusal>
        ensures places { result ≡ ok_or (first_word (blank self.now.shape) plane row column count) NoSuchPlace }
        ensures within { IfOk result (λ at. at + count ≤ shape_words self.now.shape) }
    {
        match self.shape.planes.get(plane) {
            Some(plane) if plane.size.has_columns(row, column, count) => {
                Ok(plane.start + row * plane.size.width + column)
            }
            _ => Err(Refusal::NoSuchPlace),
        }
    }

    // The sample in a word.
    fn sample_of(&self, word: u16) -> u16
        ensures { result ≡ word % 2 ^ self.now.shape.depth }
    {
        word & largest(self.shape.depth)
    }

    // Whether a value needs more bits than the depth has.
    fn is_large(&self, value: u16) -> bool
        ensures { result ≡ nat_le (2 ^ self.now.shape.depth) value }
    {
        value > largest(self.shape.depth)
    }
}

impl<'a> Store for Planar<'a> {
    ghost use Rattle.theory.specs.Pictures.{put_answer, put_after, put_row_answer, put_row_after};
    ghost use Rattle.stores.specs.Keeping.{IfRefused};
    ghost use Rattle.stores.specs.Words.{words_after, row_words_after};
    ghost use Rattle.stores.specs.Stored.{planar_picture, planar_lawful, PlanarRest, planar_rest};

    ghost picture = { planar_picture };

    ghost lawful = { planar_lawful };

    ghost Rest = { PlanarRest };

    ghost rest = { planar_rest };

    fn planes(&self) -> usize {
        self.shape.plane_count
    }

    fn width(&self, plane: usize) -> usize {
        self.shape.plane(plane).size.width
    }

    fn height(&self, plane: usize) -> usize {
        self.shape.plane(plane).size.height
    }

    fn depth(&self) -> u8 {
        self.shape.depth
    }

    fn show(&self, plane: usize, row: usize, column: usize) -> Result<u16, Refusal> {
        let at = self.word(plane, row, column)?;
        Ok(self.sample_of(self.words[at]))
    }

    fn put(&mut self, plane: usize, row: usize, column: usize, value: u16) -> Result<(), Refusal>
        ensures answer { numbered result ≡ put_answer (planar_picture self.old) plane row column value }
        ensures picture { planar_picture self.new ≡ put_after (planar_picture self.old) plane row column value }
        ensures rest { planar_rest self.new ≡ planar_rest self.old }
        ensures kept { IfRefused result (self.new ≡ self.old) }
        ensures words { self.new.words.now ≡ words_after (blank self.old.shape) self.old.words.now plane row column value }
    {
        let at = self.word(plane, row, column)?;
        if self.is_large(value) {
            return Err(Refusal::ValueTooLarge);
        }
        self.words[at] = value;
        Ok(())
    }

    fn show_row(
        &self,
        plane: usize,
        row: usize,
        column: usize,
        samples: &mut [u16],
    ) -> Result<(), Refusal> {
        let at = self.first_word(plane, row, column, samples.len())?;
        let words = &self.words[at..at + samples.len()];
        copy_masked(words, largest(self.shape.depth), samples);
        Ok(())
    }

    fn put_row(
        &mut self,
        plane: usize,
        row: usize,
        column: usize,
        samples: &[u16],
    ) -> Result<(), Refusal>
        ensures answer { numbered result ≡ put_row_answer (planar_picture self.old) plane row column samples.now }
        ensures picture { planar_picture self.new ≡ put_row_after (planar_picture self.old) plane row column samples.now }
        ensures rest { planar_rest self.new ≡ planar_rest self.old }
        ensures kept { IfRefused result (self.new ≡ self.old) }
        ensures words { self.new.words.now ≡ row_words_after (blank self.old.shape) self.old.words.now plane row column samples.now }
    {
        let at = self.first_word(plane, row, column, samples.len())?;
        if !all_fit(samples, self.shape.depth) {
            return Err(Refusal::ValueTooLarge);
        }
        self.words[at..at + samples.len()].copy_from_slice(samples);
        Ok(())
    }
}
