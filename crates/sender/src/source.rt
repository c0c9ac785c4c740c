//! What packets are written from: a tested part, and a store that fits it.

ghost use Rattle.std.specs.Prelude.{◌≡◌, true, Some, MatchResult, ⊤};
ghost use Rattle.refusals.specs.Numbers.{number_of};
ghost use Rattle.formats.specs.Meaning.{part_of};
ghost use Rattle.theory.specs.Formats.{layout_of, row_groups as unit_row_groups, groups as groups_of};
ghost use Rattle.theory.specs.Pictures.{fits_part};
ghost use Rattle.sender.specs.Fields.{has_field};
ghost use Rattle.sender.specs.Tested.{Tested};
ghost use Rattle.sender.specs.Sources.{source_refusal};

use formats::Part;
use kinds::GroupKind;
use refusals::Refusal;
use std::alloc::AllocError;
use stores::{Store, fits};

/// A part whose format and field were tested, with a store that fits it. The part's numbers are counted once for a packet, for speed.
pub(crate) struct Source<'a, K: GroupKind, S: Store> {
    pub(crate) part: &'a Part<K>,
    pub(crate) store: &'a S,
    /// Octets of a group.
    pub(crate) octets: usize,
    /// Groups of a unit row.
    pub(crate) row_groups: usize,
    /// Groups of the part.
    pub(crate) groups: usize,
    ghost tested: { Tested (part_of K.GroupKind.kind part.now) },
    ghost fits: { fits_part (S.Store.picture store.now) (part_of K.GroupKind.kind part.now) ≡ true },
    ghost octets_are: { octets ≡ (layout_of (part_of K.GroupKind.kind part.now).format).octets },
    ghost row_groups_are: { row_groups ≡ unit_row_groups (part_of K.GroupKind.kind part.now).format },
    ghost groups_are: { groups ≡ groups_of (part_of K.GroupKind.kind part.now) },
}

// By hand: `derive` asks `Copy` of K and S, and `derive_where` is refused for a struct with a ghost field.
impl<K: GroupKind, S: Store> Copy for Source<'_, K, S> {}

impl<K: GroupKind, S: Store> Clone for Source<'_, K, S> {
    ghost is_clone = { λ x y. y ≡ x };

    ghost is_infallible = { λ _. ⊤ };

    fn clone(&self) -> Result<Self, AllocError> {
        Ok(*self)
    }
}

impl<'a, K: GroupKind, S: Store> Source<'a, K, S> {
    /// The source of a part whose format has the field: refusal 4 outside the limits, then 6 for a store unlike the part.
    pub(crate) fn new(part: &'a Part<K>, store: &'a S) -> Result<Self, Refusal>
        requires { has_field part.now.format.scan part.now.field ≡ true }
        ensures { let t = part_of K.GroupKind.kind part.now in let v = S.Store.picture store.now in MatchResult result (λ s. (s.part.now ≡ part.now) × (s.store.now ≡ store.now)) (λ e. source_refusal t v ≡ Some (number_of e)) }
    {
        part.format.check()?;
        if !fits(part, store) {
            return Err(Refusal::StoreOrMapUnfit);
        }
        Ok(Source {
            part,
            store,
            octets: part.format.group_octets(),
            row_groups: part.format.row_groups(),
            groups: part.groups(),
        })
    }
}
