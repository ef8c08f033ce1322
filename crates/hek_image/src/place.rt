//! Places in an image.
ghost use Rattle.std.specs.Prelude.{◌+◌, ◌<◌, ◌^◌, length};

/// Where a field begins, and the bytes from there on.
#[derive(Clone, Copy)]
pub(crate) struct Place<'a> {
    pub(crate) at: u64,
    pub(crate) rest: &'a [u8],
    ghost fits: { at + length rest.now < 2 ^ 64 },
}
