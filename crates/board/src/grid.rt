//! A board of an array of fixed rows.
ghost use Rattle.std.specs.Prelude.{◌≡◌, ◌≤◌, [], length as count_of};
ghost use Rattle.arrayvec.specs.ArrayVec.{array_vec_len};

use arrayvec::ArrayVec;

/// How many bytes a row may have, and how many rows there may be.
pub(crate) const ROW_CELLS: usize = 256;

pub(crate) const ROWS: usize = 64;

/// One row of a grid.
#[derive(Drop)]
pub struct Strip {
    pub(crate) margin: usize,
    pub(crate) bytes: ArrayVec<u8, ROW_CELLS>,
    ghost short: { array_vec_len bytes ≤ 256 },
}

// A derive is refused for a struct with a ghost field.
impl Default for Strip {
    ghost is_default = { λ s. (s.margin ≡ 0) × (s.bytes.items ≡ []) };

    fn default() -> Self {
        Strip {
            margin: 0,
            bytes: ArrayVec::new(),
        }
    }
}

/// Up to 64 rows of up to 256 bytes.
/// The first `count` strips are its rows: a cut row's strip stays until the next row takes its place, so that a cut costs nothing.
#[derive(Drop)]
pub struct Grid {
    pub(crate) strips: [Strip; ROWS],
    pub(crate) count: usize,
    ghost places: { count_of strips ≡ 64 },
    ghost few: { count ≤ 64 },
}
