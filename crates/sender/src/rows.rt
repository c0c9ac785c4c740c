//! The samples of a run of groups, shown row by row into words.

ghost use Rattle.std.specs.Prelude.{◌≡◌, ◌*◌, ◌<◌, length};
ghost use Rattle.formats.specs.Meaning.{part_of};
ghost use Rattle.theory.specs.Layouts.{group_width};
ghost use Rattle.theory.specs.Formats.{layout_of};
ghost use Rattle.sender.specs.Rows.{row_samples, HoldsRow, HoldsPlane, HoldsRun};

use crate::runs::Run;
use kinds::GroupKind;
use stores::Store;

/// The most words of a row: a group has at most 8 columns.
pub(crate) const ROW: usize = 512;

/// The most rows of a group.
pub(crate) const ROWS: usize = 2;

/// The most planes.
pub(crate) const PLANES: usize = 3;

/// Words for the samples of a run: planes of rows.
pub(crate) type Words = [[[u16; ROW]; ROWS]; PLANES];

impl<K: GroupKind, S: Store> Run<'_, K, S> {
    /// Shows the samples of the run.
    pub(crate) fn show(&self, words: &mut Words)
        ensures { HoldsRun (part_of K.GroupKind.kind self.now.source.part.now) (S.Store.picture self.now.source.store.now) self.now.unit_row self.now.place self.now.groups words.new }
    {
        let planes = self.source.part.format.kind.plane_count();
        for (plane, rows) in words[..planes].iter_mut().enumerate() {
            self.show_plane(plane, rows);
        }
    }

    // Shows those of a plane.
    fn show_plane(&self, plane: usize, rows: &mut [[u16; ROW]; ROWS])
        requires { plane < (part_of K.GroupKind.kind self.now.source.part.now).format.kind.planes }
        ensures { HoldsPlane (part_of K.GroupKind.kind self.now.source.part.now) (S.Store.picture self.now.source.store.now) self.now.unit_row self.now.place self.now.groups plane rows.new }
    {
        let format = &self.source.part.format;
        let height = format.kind.group_rows() / format.kind.row_step(format.depth, plane);
        let first = self.unit_row * height;
        for (d, row) in rows[..height].iter_mut().enumerate() {
            self.show_columns(plane, first + d, row);
        }
    }

    // Shows those of a row.
    fn show_columns(&self, plane: usize, row: usize, words: &mut [u16])
        requires inside { plane < (part_of K.GroupKind.kind self.now.source.part.now).format.kind.planes }
        requires room { length words.old ≡ 512 }
        ensures { let t = part_of K.GroupKind.kind self.now.source.part.now in let width = group_width (layout_of t.format) plane in HoldsRow (S.Store.picture self.now.source.store.now) plane row (self.now.place * width) (self.now.groups * width) words.new }
    {
        let format = &self.source.part.format;
        let width = format.kind.columns(format.depth)
            / format.kind.column_step(format.depth, plane);
        let column = self.place * width;
        let samples = self.groups * width;
        show_row(self.source.store, plane, row, column, &mut words[..samples]);
    }
}

// Shows the samples of a row from a column on; fill, which lies outside the plane, is 0.
fn show_row<S: Store>(store: &S, plane: usize, row: usize, column: usize, words: &mut [u16])
    ensures { words.new ≡ row_samples (S.Store.picture store.now) plane row column (length words.old) }
{
    let inside = words.len().min(store.width(plane).saturating_sub(column));
    match store.show_row(plane, row, column, &mut words[..inside]) {
        Ok(()) => words[inside..].fill(0),
        Err(_) => words.fill(0),
    }
}
