//! What a sampling family says of its groups, and how the questions of its kind are answered from that.

ghost use Rattle.std.specs.Prelude.{◌≡◌, ℕ, ◌<◌, cond, nat_lt, ◌&&◌, ◌==◌};
ghost use Rattle.theory.specs.Layouts.{Kind, Layout, LawfulKind};
ghost use Rattle.kinds.specs.Families.{Follows};

/// Where a sample stands: its plane, and its row and column there inside the group.
#[derive(Clone, Copy, Default)]
pub(crate) struct Place {
    pub(crate) plane: usize,
    pub(crate) row: usize,
    pub(crate) column: usize,
}

/// A sampling family, in numbers that are the same at each of its depths. Only the columns of a group are by depth.
pub(crate) trait Family {
    /// The samples of a group to each of its columns.
    const SAMPLES: usize;

    /// How many columns of the part there are to one of each plane but the first, which has them all.
    const COLUMN_STEP: usize;

    /// The same of rows.
    const ROW_STEP: usize;

    ghost SAMPLES: { ℕ };

    ghost COLUMN_STEP: { ℕ };

    ghost ROW_STEP: { ℕ };

    ghost family: { Kind };

    /// The layout with the most columns. The others are the front of it.
    ghost widest: { Layout };

    /// The columns that a group covers; 0 if the family does not have the depth.
    fn group_columns(depth: u8) -> usize
        ensures { result ≡ (family.layout depth).columns };

    /// The place of position `k`.
    fn place(k: usize) -> Place
        ensures plane { k < widest.positions → result.plane ≡ widest.plane k }
        ensures row { k < widest.positions → result.row ≡ widest.row k }
        ensures column { k < widest.positions → result.column ≡ widest.column k };

    ghost laws: { LawfulKind family };

    ghost follows: { (depth : ℕ) → Follows family.planes SAMPLES COLUMN_STEP ROW_STEP widest (family.layout depth) };
}

/// The samples of a group.
#[inline]
pub(crate) fn positions<F: Family>(depth: u8) -> usize
    ensures { result ≡ (F.family.layout depth).positions }
{
    F::SAMPLES * F::group_columns(depth)
}

/// The octets of a group.
#[inline]
pub(crate) fn octets<F: Family>(depth: u8) -> usize
    ensures { result ≡ (F.family.layout depth).octets }
{
    positions::<F>(depth) * usize::from(depth) / 8
}

/// How many columns of the part there are to one of the plane.
#[inline]
pub(crate) fn column_step<F: Family>(depth: u8, plane: usize, planes: usize) -> usize
    requires { planes ≡ F.family.planes }
    ensures { result ≡ (F.family.layout depth).column_step plane }
{
    step_of::<F>(depth, plane, planes, F::COLUMN_STEP)
}

/// How many rows of the part there are to one of the plane.
#[inline]
pub(crate) fn row_step<F: Family>(depth: u8, plane: usize, planes: usize) -> usize
    requires { planes ≡ F.family.planes }
    ensures { result ≡ (F.family.layout depth).row_step plane }
{
    step_of::<F>(depth, plane, planes, F::ROW_STEP)
}

// How many columns, or rows, of the part there are to one of a plane, where there are so many to one of each plane but the first.
#[inline]
fn step_of<F: Family>(depth: u8, plane: usize, planes: usize, others: usize) -> usize
    ensures { result ≡ cond (nat_lt 0 (F.family.layout depth).columns && nat_lt plane planes) (cond (plane == 0) 1 others) 0 }
{
    if F::group_columns(depth) == 0 || plane >= planes {
        0
    } else if plane == 0 {
        1
    } else {
        others
    }
}

/// The place of position `k`; 0 throughout if there is no such position.
#[inline]
pub(crate) fn place_at<F: Family>(depth: u8, k: usize) -> Place
    ensures plane { result.plane ≡ (F.family.layout depth).plane k }
    ensures row { result.row ≡ (F.family.layout depth).row k }
    ensures column { result.column ≡ (F.family.layout depth).column k }
{
    if k < positions::<F>(depth) {
        F::place(k)
    } else {
        Place::default()
    }
}
