//! A group into the picture.

ghost use Rattle.std.specs.Prelude.{◌≡◌, ◌<◌, ◌≤◌, true, length};
ghost use Rattle.formats.specs.Meaning.{part_of};
ghost use Rattle.theory.specs.Formats.{layout_of, row_groups};
ghost use Rattle.theory.specs.Groups.{place_row, place_column};
ghost use Rattle.theory.specs.Pictures.{fits_part};
ghost use Rattle.receiver.specs.Filling.{group_at, with_group};

use formats::Part;
use kinds::{GroupKind, unpack};
use stores::Store;

// Where a sample lies in a picture.
#[derive(Clone, Copy)]
struct Place {
    plane: usize,
    row: usize,
    column: usize,
}

/// A group of a part: its unit row, and its place there.
#[derive(Drop)]
pub(crate) struct Group<'a, K: GroupKind> {
    pub(crate) part: &'a Part<K>,
    pub(crate) unit_row: usize,
    pub(crate) at: usize,
    ghost lawful: { 0 < (layout_of (part_of K.GroupKind.kind part.now).format).octets },
    ghost row: { unit_row ≤ 65535 },
    ghost inside: { at < row_groups (part_of K.GroupKind.kind part.now).format },
    ghost small: { at ≤ 65535 },
}

impl<K: GroupKind> Group<'_, K> {
    /// Puts the samples of the group, from its octets. A position outside its plane is fill, and the store refuses it.
    pub(crate) fn put<S: Store>(&self, octets: &[u8], store: &mut S)
        requires fits { fits_part (S.Store.picture store.old) (part_of K.GroupKind.kind self.now.part.now) ≡ true }
        requires whole { length octets.now ≡ (layout_of (part_of K.GroupKind.kind self.now.part.now).format).octets }
        ensures picture { let t = part_of K.GroupKind.kind self.now.part.now in
            S.Store.picture store.new ≡ with_group t (S.Store.picture store.old) (group_at t self.now.unit_row self.now.at) octets.now }
        ensures rest { S.Store.rest store.new ≡ S.Store.rest store.old }
    {
        let kind = &self.part.format.kind;
        let depth = self.part.format.depth;
        // By number: a position is no part of a slice, and `unpack` and the kind are asked by its number.
        for k in 0..kind.positions(depth) {
            let place = self.place(k);
            let value = unpack(kind, depth, octets, k);
            let _ = store.put(place.plane, place.row, place.column, value);
        }
    }

    // Where position `k` lies.
    fn place(&self, k: usize) -> Place
        requires { k < (layout_of (part_of K.GroupKind.kind self.now.part.now).format).positions }
        ensures plane { result.plane ≡ (layout_of (part_of K.GroupKind.kind self.now.part.now).format).plane k }
        ensures row { let t = part_of K.GroupKind.kind self.now.part.now in result.row ≡ place_row t (group_at t self.now.unit_row self.now.at) k }
        ensures column { let t = part_of K.GroupKind.kind self.now.part.now in result.column ≡ place_column t (group_at t self.now.unit_row self.now.at) k }
    {
        let kind = &self.part.format.kind;
        let depth = self.part.format.depth;
        let plane = kind.position_plane(depth, k);
        let height = kind.group_rows() / kind.row_step(depth, plane);
        let width = kind.columns(depth) / kind.column_step(depth, plane);
        Place {
            plane,
            row: self.unit_row * height + kind.position_row(depth, k),
            column: self.at * width + kind.position_column(depth, k),
        }
    }
}
