//! A row to be put: its bytes have no byte 10, and its margin is part of them.
ghost use Rattle.std.specs.Prelude.{◌≡◌, true};
ghost use Rattle.board.specs.Row.{is_row};

/// A row: how many of its bytes are margin, and its bytes.
#[derive(Clone, Copy)]
pub struct Row<'a> {
    pub(crate) margin: usize,
    pub(crate) bytes: &'a [u8],
    ghost sound: { is_row margin bytes.now ≡ true },
}
