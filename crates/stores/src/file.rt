//! The work file as a value.

ghost use Rattle.std.specs.Prelude.{◌≤◌};

/// An open store over bytes that it owns: key n is the n-th page, counted from 0.
#[derive(Drop)]
pub struct WorkFile {
    pub(crate) bytes: Vec<u8>,
    pub(crate) page_size: usize,
    ghost fits: { page_size ≤ 4096 },
}
