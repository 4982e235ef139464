//! An address of at most 512 bytes, in place, so that nothing is allocated for it.
ghost use Rattle.std.specs.Prelude.{◌≡◌, ◌≤◌, length};

/// The most bytes that a resolved address may have, in percent form.
pub(crate) const ADDRESS_LIMIT: usize = 512;

/// An address, in a place of a fixed size since nothing is allocated: the bytes from `start` on. It is written from its end to its front.
#[derive(Clone, Copy)]
pub struct Address {
    pub(crate) bytes: [u8; ADDRESS_LIMIT],
    pub(crate) start: usize,
    ghost inside: { start ≤ 512 },
    ghost size: { length bytes ≡ 512 },
}

/// An address that is being written, or none once a text did not fit.
#[derive(Clone, Copy)]
pub(crate) struct Draft(pub(crate) Option<Address>);
