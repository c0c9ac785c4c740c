//! Whether a store is for a part.

ghost use Rattle.std.specs.Prelude.{◌≡◌, ◌&&◌, ◌==◌};
ghost use Rattle.formats.specs.Meaning.{part_of};
ghost use Rattle.theory.specs.Octets.{all_below};
ghost use Rattle.theory.specs.Formats.{plane_width, plane_height};
ghost use Rattle.theory.specs.Pictures.{fits_part};

use crate::store::Store;
use formats::Part;
use kinds::GroupKind;

/// Whether the number of planes, their sizes and the depth of a store are those of a part.
pub fn fits<K: GroupKind, S: Store>(part: &Part<K>, store: &S) -> bool
    ensures { result ≡ fits_part (S.Store.picture store.now) (part_of K.GroupKind.kind part.now) }
{
    store.planes() == part.format.kind.plane_count()
        && planes_fit(part, store)
        && store.depth() == part.format.depth
}

fn planes_fit<K: GroupKind, S: Store>(part: &Part<K>, store: &S) -> bool
    ensures { let t = part_of K.GroupKind.kind part.now in let v = S.Store.picture store.now in result ≡ all_below 3 (λ p. v.width p == plane_width t p && v.height p == plane_height t p) }
{
    (0..3).all(|plane| {
        store.width(plane) == part.plane_width(plane)
            && store.height(plane) == part.plane_height(plane)
    })
}
