//! A segment into the picture and the map.

ghost use Rattle.std.specs.Prelude.{◌≡◌, ◌≤◌, None};
ghost use Rattle.formats.specs.Meaning.{part_of};
ghost use Rattle.packets.specs.Carried.{placed};
ghost use Rattle.theory.specs.Taking.{survey_refusal};
ghost use Rattle.receiver.specs.Filling.{InPart, SegmentPut};

use crate::group::Group;
use crate::map;
use formats::Part;
use kinds::GroupKind;
use packets::Segment;
use stores::Store;

/// Puts the groups of a segment whose bit is clear, and sets their bits. Returns how many these are.
/// Store and map are lent one by one, as the callers of `take` lend them: a struct of both would be made and taken apart for this call.
pub(crate) fn put_segment<K: GroupKind, S: Store>(
    part: &Part<K>,
    segment: Segment,
    store: &mut S,
    map: &mut [u8],
) -> usize
    requires ready { survey_refusal (part_of K.GroupKind.kind part.now) (S.Store.picture store.old) map.old ≡ None }
    requires inside { InPart (part_of K.GroupKind.kind part.now) (placed segment) }
    ensures put { let t = part_of K.GroupKind.kind part.now in
        SegmentPut t (S.Store.picture store.old) map.old (placed segment.entry) (S.Store.picture store.new) map.new result }
    ensures few { result ≤ 65535 }
    ensures rest { S.Store.rest store.new ≡ S.Store.rest store.old }
{
    let start = segment.unit_row * part.format.row_groups() + segment.first_group;
    let groups = segment.octets.chunks_exact(part.format.group_octets());
    let mut count = 0;
    for (i, octets) in groups.enumerate() {
        if !map::is_set(map, start + i) {
            let group = Group {
                part,
                unit_row: segment.unit_row,
                at: segment.first_group + i,
            };
            group.put(octets, store);
            map::set(map, start + i);
            count += 1;
        }
    }
    count
}
