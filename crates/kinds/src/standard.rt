//! The kinds of the standard, one for each sampling family.

ghost use Rattle.std.specs.Prelude.{◌≡◌, true, false, [], ◌∷◌, refl};
ghost use Rattle.theory.specs.Kinds.{full_layout, half_layout, key, key_layout, quarter_layout, rgb, xyz, ycc420, ycc422, ycc444};
ghost use Rattle.theory.proofs.Lawfulness.{standard_kinds};
ghost use Rattle.kinds.specs.Laws.{lawful_full, follows_deep, follows_full, follows_half, follows_key, follows_quarter};

use crate::family::{Family, Place, column_step, octets, place_at, positions, row_step};
use crate::kind::GroupKind;

/// YCbCr, CLYCbCr and ICtCp at 4:4:4: planes 1, 0 and 2 of each column.
#[derive(Clone, Copy)]
pub struct Ycc444;

/// YCbCr, CLYCbCr and ICtCp at 4:2:2: plane 1, plane 0 left, plane 2, plane 0 right, of two columns.
#[derive(Clone, Copy)]
pub struct Ycc422;

/// YCbCr, CLYCbCr and ICtCp at 4:2:0: for each two columns of two rows, four of plane 0, then planes 1 and 2. It has no depth 16.
#[derive(Clone, Copy)]
pub struct Ycc420;

/// R, G and B of each column.
#[derive(Clone, Copy)]
pub struct Rgb;

/// X, Y and Z of each column, at depths 12 and 16 only.
#[derive(Clone, Copy)]
pub struct Xyz;

/// The key of each column.
#[derive(Clone, Copy)]
pub struct Key;

/// The columns of a group whose planes have every column.
fn full_columns(depth: u8) -> usize
    ensures { result ≡ (key.layout depth).columns }
{
    match depth {
        8 | 16 => 1,
        10 => 4,
        12 => 2,
        _ => 0,
    }
}

// Each kind has an implementation of its own, and not one for all families: the constants of a generic one are not evaluated, so a caller could
// neither take them for an array's length nor know what they are.
impl GroupKind for Ycc444 {
    const PLANES: usize = 3;

    const ROWS: usize = 1;

    ghost kind = { λ _. ycc444 };

    ghost lawful = { λ _. lawful_full _ true refl refl };

    fn plane_count(&self) -> usize {
        Self::PLANES
    }

    fn group_rows(&self) -> usize {
        Self::ROWS
    }

    fn octets(&self, depth: u8) -> usize {
        octets::<Self>(depth)
    }

    fn columns(&self, depth: u8) -> usize {
        Self::group_columns(depth)
    }

    fn positions(&self, depth: u8) -> usize {
        positions::<Self>(depth)
    }

    fn column_step(&self, depth: u8, plane: usize) -> usize {
        column_step::<Self>(depth, plane, Self::PLANES)
    }

    fn row_step(&self, depth: u8, plane: usize) -> usize {
        row_step::<Self>(depth, plane, Self::PLANES)
    }

    fn position_plane(&self, depth: u8, k: usize) -> usize {
        place_at::<Self>(depth, k).plane
    }

    fn position_row(&self, depth: u8, k: usize) -> usize {
        place_at::<Self>(depth, k).row
    }

    fn position_column(&self, depth: u8, k: usize) -> usize {
        place_at::<Self>(depth, k).column
    }
}

// 4:4:4, RGB and XYZ state the same numbers: a trait for the three would owe each of their laws again and state the numbers once more, which is
// no plainer.
impl Family for Ycc444 {
    const SAMPLES: usize = 3;

    const COLUMN_STEP: usize = 1;

    const ROW_STEP: usize = 1;

    ghost SAMPLES = { 3 };

    ghost COLUMN_STEP = { 1 };

    ghost ROW_STEP = { 1 };

    ghost family = { ycc444 };

    ghost widest = { full_layout (1 ∷ 0 ∷ 2 ∷ []) 15 4 };

    ghost laws = { lawful_full _ true refl refl };

    ghost follows = { follows_full (1 ∷ 0 ∷ 2 ∷ []) };

    fn group_columns(depth: u8) -> usize {
        full_columns(depth)
    }

    fn place(k: usize) -> Place {
        let plane = match k % 3 {
            0 => 1,
            1 => 0,
            _ => 2,
        };
        Place {
            plane,
            row: 0,
            column: k / 3,
        }
    }
}

impl GroupKind for Rgb {
    const PLANES: usize = 3;

    const ROWS: usize = 1;

    ghost kind = { λ _. rgb };

    ghost lawful = { λ _. lawful_full _ true refl refl };

    fn plane_count(&self) -> usize {
        Self::PLANES
    }

    fn group_rows(&self) -> usize {
        Self::ROWS
    }

    fn octets(&self, depth: u8) -> usize {
        octets::<Self>(depth)
    }

    fn columns(&self, depth: u8) -> usize {
        Self::group_columns(depth)
    }

    fn positions(&self, depth: u8) -> usize {
        positions::<Self>(depth)
    }

    fn column_step(&self, depth: u8, plane: usize) -> usize {
        column_step::<Self>(depth, plane, Self::PLANES)
    }

    fn row_step(&self, depth: u8, plane: usize) -> usize {
        row_step::<Self>(depth, plane, Self::PLANES)
    }

    fn position_plane(&self, depth: u8, k: usize) -> usize {
        place_at::<Self>(depth, k).plane
    }

    fn position_row(&self, depth: u8, k: usize) -> usize {
        place_at::<Self>(depth, k).row
    }

    fn position_column(&self, depth: u8, k: usize) -> usize {
        place_at::<Self>(depth, k).column
    }
}

impl Family for Rgb {
    const SAMPLES: usize = 3;

    const COLUMN_STEP: usize = 1;

    const ROW_STEP: usize = 1;

    ghost SAMPLES = { 3 };

    ghost COLUMN_STEP = { 1 };

    ghost ROW_STEP = { 1 };

    ghost family = { rgb };

    ghost widest = { full_layout (0 ∷ 1 ∷ 2 ∷ []) 15 4 };

    ghost laws = { lawful_full _ true refl refl };

    ghost follows = { follows_full (0 ∷ 1 ∷ 2 ∷ []) };

    fn group_columns(depth: u8) -> usize {
        full_columns(depth)
    }

    fn place(k: usize) -> Place {
        Place {
            plane: k % 3,
            row: 0,
            column: k / 3,
        }
    }
}

impl GroupKind for Xyz {
    const PLANES: usize = Rgb::PLANES;

    const ROWS: usize = Rgb::ROWS;

    ghost kind = { λ _. xyz };

    ghost lawful = { λ _. lawful_full _ false refl refl };

    fn plane_count(&self) -> usize {
        Self::PLANES
    }

    fn group_rows(&self) -> usize {
        Self::ROWS
    }

    fn octets(&self, depth: u8) -> usize {
        octets::<Self>(depth)
    }

    fn columns(&self, depth: u8) -> usize {
        Self::group_columns(depth)
    }

    fn positions(&self, depth: u8) -> usize {
        positions::<Self>(depth)
    }

    fn column_step(&self, depth: u8, plane: usize) -> usize {
        column_step::<Self>(depth, plane, Self::PLANES)
    }

    fn row_step(&self, depth: u8, plane: usize) -> usize {
        row_step::<Self>(depth, plane, Self::PLANES)
    }

    fn position_plane(&self, depth: u8, k: usize) -> usize {
        place_at::<Self>(depth, k).plane
    }

    fn position_row(&self, depth: u8, k: usize) -> usize {
        place_at::<Self>(depth, k).row
    }

    fn position_column(&self, depth: u8, k: usize) -> usize {
        place_at::<Self>(depth, k).column
    }
}

impl Family for Xyz {
    const SAMPLES: usize = Rgb::SAMPLES;

    const COLUMN_STEP: usize = Rgb::COLUMN_STEP;

    const ROW_STEP: usize = Rgb::ROW_STEP;

    ghost SAMPLES = { 3 };

    ghost COLUMN_STEP = { 1 };

    ghost ROW_STEP = { 1 };

    ghost family = { xyz };

    ghost widest = { full_layout (0 ∷ 1 ∷ 2 ∷ []) 9 2 };

    ghost laws = { lawful_full _ false refl refl };

    ghost follows = { follows_deep };

    fn group_columns(depth: u8) -> usize {
        if depth < 12 { 0 } else { full_columns(depth) }
    }

    fn place(k: usize) -> Place {
        Rgb::place(k)
    }
}

impl GroupKind for Ycc422 {
    const PLANES: usize = 3;

    const ROWS: usize = 1;

    ghost kind = { λ _. ycc422 };

    ghost lawful = { λ _. standard_kinds.ycc422_lawful };

    fn plane_count(&self) -> usize {
        Self::PLANES
    }

    fn group_rows(&self) -> usize {
        Self::ROWS
    }

    fn octets(&self, depth: u8) -> usize {
        octets::<Self>(depth)
    }

    fn columns(&self, depth: u8) -> usize {
        Self::group_columns(depth)
    }

    fn positions(&self, depth: u8) -> usize {
        positions::<Self>(depth)
    }

    fn column_step(&self, depth: u8, plane: usize) -> usize {
        column_step::<Self>(depth, plane, Self::PLANES)
    }

    fn row_step(&self, depth: u8, plane: usize) -> usize {
        row_step::<Self>(depth, plane, Self::PLANES)
    }

    fn position_plane(&self, depth: u8, k: usize) -> usize {
        place_at::<Self>(depth, k).plane
    }

    fn position_row(&self, depth: u8, k: usize) -> usize {
        place_at::<Self>(depth, k).row
    }

    fn position_column(&self, depth: u8, k: usize) -> usize {
        place_at::<Self>(depth, k).column
    }
}

impl Family for Ycc422 {
    const SAMPLES: usize = 2;

    const COLUMN_STEP: usize = 2;

    const ROW_STEP: usize = 1;

    ghost SAMPLES = { 2 };

    ghost COLUMN_STEP = { 2 };

    ghost ROW_STEP = { 1 };

    ghost family = { ycc422 };

    ghost widest = { half_layout 4 };

    ghost laws = { standard_kinds.ycc422_lawful };

    ghost follows = { follows_half };

    fn group_columns(depth: u8) -> usize {
        match depth {
            8 | 10 | 12 | 16 => 2,
            _ => 0,
        }
    }

    fn place(k: usize) -> Place {
        let (plane, column) = match k {
            0 => (1, 0),
            1 => (0, 0),
            2 => (2, 0),
            _ => (0, 1),
        };
        Place {
            plane,
            row: 0,
            column,
        }
    }
}

impl GroupKind for Ycc420 {
    const PLANES: usize = 3;

    const ROWS: usize = 2;

    ghost kind = { λ _. ycc420 };

    ghost lawful = { λ _. standard_kinds.ycc420_lawful };

    fn plane_count(&self) -> usize {
        Self::PLANES
    }

    fn group_rows(&self) -> usize {
        Self::ROWS
    }

    fn octets(&self, depth: u8) -> usize {
        octets::<Self>(depth)
    }

    fn columns(&self, depth: u8) -> usize {
        Self::group_columns(depth)
    }

    fn positions(&self, depth: u8) -> usize {
        positions::<Self>(depth)
    }

    fn column_step(&self, depth: u8, plane: usize) -> usize {
        column_step::<Self>(depth, plane, Self::PLANES)
    }

    fn row_step(&self, depth: u8, plane: usize) -> usize {
        row_step::<Self>(depth, plane, Self::PLANES)
    }

    fn position_plane(&self, depth: u8, k: usize) -> usize {
        place_at::<Self>(depth, k).plane
    }

    fn position_row(&self, depth: u8, k: usize) -> usize {
        place_at::<Self>(depth, k).row
    }

    fn position_column(&self, depth: u8, k: usize) -> usize {
        place_at::<Self>(depth, k).column
    }
}

impl Family for Ycc420 {
    const SAMPLES: usize = 3;

    const COLUMN_STEP: usize = 2;

    const ROW_STEP: usize = 2;

    ghost SAMPLES = { 3 };

    ghost COLUMN_STEP = { 2 };

    ghost ROW_STEP = { 2 };

    ghost family = { ycc420 };

    ghost widest = { quarter_layout 15 4 };

    ghost laws = { standard_kinds.ycc420_lawful };

    ghost follows = { follows_quarter };

    fn group_columns(depth: u8) -> usize {
        match depth {
            8 | 12 => 2,
            10 => 4,
            _ => 0,
        }
    }

    fn place(k: usize) -> Place {
        let pair = k / 6;
        let left = 2 * pair;
        let (plane, row, column) = match k % 6 {
            0 => (0, 0, left),
            1 => (0, 0, left + 1),
            2 => (0, 1, left),
            3 => (0, 1, left + 1),
            4 => (1, 0, pair),
            _ => (2, 0, pair),
        };
        Place { plane, row, column }
    }
}

impl GroupKind for Key {
    const PLANES: usize = 1;

    const ROWS: usize = 1;

    ghost kind = { λ _. key };

    ghost lawful = { λ _. standard_kinds.key_lawful };

    fn plane_count(&self) -> usize {
        Self::PLANES
    }

    fn group_rows(&self) -> usize {
        Self::ROWS
    }

    fn octets(&self, depth: u8) -> usize {
        octets::<Self>(depth)
    }

    fn columns(&self, depth: u8) -> usize {
        Self::group_columns(depth)
    }

    fn positions(&self, depth: u8) -> usize {
        positions::<Self>(depth)
    }

    fn column_step(&self, depth: u8, plane: usize) -> usize {
        column_step::<Self>(depth, plane, Self::PLANES)
    }

    fn row_step(&self, depth: u8, plane: usize) -> usize {
        row_step::<Self>(depth, plane, Self::PLANES)
    }

    fn position_plane(&self, depth: u8, k: usize) -> usize {
        place_at::<Self>(depth, k).plane
    }

    fn position_row(&self, depth: u8, k: usize) -> usize {
        place_at::<Self>(depth, k).row
    }

    fn position_column(&self, depth: u8, k: usize) -> usize {
        place_at::<Self>(depth, k).column
    }
}

impl Family for Key {
    const SAMPLES: usize = 1;

    const COLUMN_STEP: usize = 1;

    const ROW_STEP: usize = 1;

    ghost SAMPLES = { 1 };

    ghost COLUMN_STEP = { 1 };

    ghost ROW_STEP = { 1 };

    ghost family = { key };

    ghost widest = { key_layout 5 4 };

    ghost laws = { standard_kinds.key_lawful };

    ghost follows = { follows_key };

    fn group_columns(depth: u8) -> usize {
        full_columns(depth)
    }

    fn place(k: usize) -> Place {
        Place {
            plane: 0,
            row: 0,
            column: k,
        }
    }
}
