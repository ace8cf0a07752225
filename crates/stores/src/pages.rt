//! Pages as bytes: how many bytes a page may have, and laying a page on others.

ghost use Rattle.std.specs.Prelude.{◌≡◌, ◌+◌, ◌≤◌, ◌&&◌, length, nat_le};
ghost use Rattle.stores.specs.Parts.{laid};

/// The most bytes that a page may have.
const LARGEST_PAGE: usize = 4096;

/// Whether a page may have `n` bytes.
pub fn is_page_size(n: usize) -> bool
    ensures { result ≡ (nat_le 1 n && nat_le n 4096) }
{
    (1..=LARGEST_PAGE).contains(&n)
}

/// Lays the page on the bytes from an offset.
pub fn lay(bytes: &mut [u8], at: usize, page: &[u8])
    requires { at + length page.now ≤ length bytes.old }
    ensures { bytes.new ≡ laid at page.now bytes.old }
{
    bytes[at..at + page.len()].copy_from_slice(page);
}
