//! One field of the frame in another store.

ghost use Rattle.std.specs.Prelude.{◌≡◌, ℕ, ◌+◌, ◌*◌, ◌^◌, ◌<◌, ◌≤◌, cond, nat_le};
ghost use Rattle.std.specs.Option.{option_copied, ok_or};
ghost use Rattle.refusals.specs.Numbers.{numbered};
ghost use Rattle.refusals.specs.declared.Refusal.TheVariants.{NoSuchPlace};
ghost use Rattle.theory.specs.Pictures.{Picture, put_answer, put_after, put_row_answer, put_row_after};
ghost use Rattle.stores.specs.Keeping.{IfRefused};
ghost use Rattle.stores.specs.Fields.{field_check, field_picture, field_lawful, field_rest, below_after, below_row_after, frame_row};

use crate::store::Store;
use refusals::Refusal;

/// A field of the frame that the store below holds, again a store: row r of field f is row 2r + f below.
/// With a field above 1 it has no planes, and depth 1.
// The field stays a number: a part has it so, and new takes every number.
#[derive(Drop)]
pub struct Field<S> {
    below: S,
    field: u8,
}

impl<S> Field<S> {
    /// Whether a frame has such a field: refusal 5 above 1.
    pub fn check(field: u8) -> Result<(), Refusal>
        ensures { numbered result ≡ field_check field }
    {
        match field {
            0 | 1 => Ok(()),
            _ => Err(Refusal::NoSuchField),
        }
    }

    /// The field of the frame below.
    pub fn new(below: S, field: u8) -> Field<S>
        ensures below { result.below ≡ below }
        ensures field { result.field ≡ field }
    {
        Field { below, field }
    }

    /// The store below again.
    pub fn into_below(self) -> S
        ensures { result ≡ self.below }
    {
        let Field { below, field: _ } = self;
        below
    }
}

impl<S: Store> Field<S> {
    // The frame, where it has such a field.
    fn frame(&self) -> Option<&S>
        ensures { option_copied result ≡ cond (nat_le self.now.field 1) (Some self.now.below) None }
    {
        (self.field <= 1).then_some(&self.below)
    }

    // Rows of a plane.
    fn rows(&self, plane: usize) -> usize
        ensures value { result ≡ (field_picture (S.Store.picture self.now.below) self.now.field).height plane }
        ensures bound { 0 < result → 2 * result + self.now.field ≤ 2 ^ 64 }
    {
        let rows = self.below.height(plane);
        match self.field {
            0 => rows.div_ceil(2),
            1 => rows / 2,
            _ => 0,
        }
    }

    // The frame's row, where the field has this one.
    fn row_below(&self, plane: usize, row: usize) -> Result<usize, Refusal>
        ensures { result ≡ ok_or (frame_row (S.Store.picture self.now.below) self.now.field plane row) NoSuchPlace }
    {
        if row >= self.rows(plane) {
            return Err(Refusal::NoSuchPlace);
        }
        Ok(2 * row + self.field as usize)
    }
}

impl<S: Store> Store for Field<S> {
    ghost picture = { λ s. field_picture (S.Store.picture s.below) s.field };

    ghost lawful = { λ s. field_lawful (S.Store.picture s.below) s.field (S.Store.lawful s.below) };

    ghost Rest = { S.Store.Rest × ℕ × Picture };

    ghost rest = { λ s. field_rest (S.Store.rest s.below) (S.Store.picture s.below) s.field };

    fn planes(&self) -> usize {
        self.frame().map_or(0, |frame| frame.planes())
    }

    fn width(&self, plane: usize) -> usize {
        self.frame().map_or(0, |frame| frame.width(plane))
    }

    fn height(&self, plane: usize) -> usize {
        self.rows(plane)
    }

    fn depth(&self) -> u8 {
        self.frame().map_or(1, |frame| frame.depth())
    }

    fn show(&self, plane: usize, row: usize, column: usize) -> Result<u16, Refusal> {
        let row = self.row_below(plane, row)?;
        self.below.show(plane, row, column)
    }

    fn put(&mut self, plane: usize, row: usize, column: usize, value: u16) -> Result<(), Refusal>
        ensures answer { numbered result ≡ put_answer (field_picture (S.Store.picture self.old.below) self.old.field) plane row column value }
        ensures picture { field_picture (S.Store.picture self.new.below) self.new.field ≡ put_after (field_picture (S.Store.picture self.old.below) self.old.field) plane row column value }
        ensures rest { field_rest (S.Store.rest self.new.below) (S.Store.picture self.new.below) self.new.field ≡ field_rest (S.Store.rest self.old.below) (S.Store.picture self.old.below) self.old.field }
        ensures kept { IfRefused result (self.new ≡ self.old) }
        ensures below { S.Store.picture self.new.below ≡ below_after (S.Store.picture self.old.below) self.old.field plane row column value }
    {
        let row = self.row_below(plane, row)?;
        self.below.put(plane, row, column, value)
    }

    fn show_row(
        &self,
        plane: usize,
        row: usize,
        column: usize,
        samples: &mut [u16],
    ) -> Result<(), Refusal> {
        let row = self.row_below(plane, row)?;
        self.below.show_row(plane, row, column, samples)
    }

    fn put_row(
        &mut self,
        plane: usize,
        row: usize,
        column: usize,
        samples: &[u16],
    ) -> Result<(), Refusal>
        ensures answer { numbered result ≡ put_row_answer (field_picture (S.Store.picture self.old.below) self.old.field) plane row column samples.now }
        ensures picture { field_picture (S.Store.picture self.new.below) self.new.field ≡ put_row_after (field_picture (S.Store.picture self.old.below) self.old.field) plane row column samples.now }
        ensures rest { field_rest (S.Store.rest self.new.below) (S.Store.picture self.new.below) self.new.field ≡ field_rest (S.Store.rest self.old.below) (S.Store.picture self.old.below) self.old.field }
        ensures kept { IfRefused result (self.new ≡ self.old) }
        ensures below { S.Store.picture self.new.below ≡ below_row_after (S.Store.picture self.old.below) self.old.field plane row column samples.now }
    {
        let row = self.row_below(plane, row)?;
        self.below.put_row(plane, row, column, samples)
    }
}
