//! Texts of several lines.

ghost use Rattle.std.specs.Prelude.{◌≡◌, ◌<◌, false, IfOk, string_bytes};
ghost use Rattle.std.specs.Fmt.{digit_glyph};
ghost use Rattle.bundles.specs.Bundles.{listed_by, meant_by};
ghost use Rattle.console.specs.Lines.{listing, hexed, Described};

use crate::lines::{DeliveryLine, RefusalLine};
use bundles::Bundle;
use std::alloc::{AllocError, Global};
use stores::Store;

// A line for each row, and then how many pages there are.
#[tactic(auto, using(crate::proofs::Printed::lines_more))]
fn list(heap: Global, bundle: &Bundle) -> Result<String, AllocError>
    ensures { IfOk result (λ s. string_bytes s ≡ listing (meant_by bundle.now).size (listed_by bundle.now)) }
{
    let mut text = String::new(heap);
    for delivery in bundle.deliveries() {
        writeln!(text, "{}", DeliveryLine(delivery))?;
    }
    writeln!(
        text,
        "{} pages of {} bytes",
        bundle.page_total(),
        bundle.page_size()
    )?;
    Ok(text)
}

/// What there is to say of bytes that may be a bundle: its rows, or the refusal.
pub fn describe(heap: Global, bytes: &[u8], page_size: usize) -> Result<String, AllocError>
    ensures { IfOk result (λ s. Described page_size bytes.now (string_bytes s)) }
{
    match Bundle::new(bytes, page_size) {
        Ok(bundle) => list(heap, &bundle),
        Err(fault) => format!(in heap; "{}\n", RefusalLine(fault)),
    }
}

// One hexadecimal digit.
// stays: two of these are pushed for each byte, since `write!(text, "{b:02x}")` for each takes five times as long.
fn digit(n: u8) -> char
    requires { n < 16 }
    ensures value { result ≡ digit_glyph false n }
    ensures ascii { result < 128 }
{
    char::from_digit(u32::from(n), 16).unwrap()
}

/// Bytes as pairs of hexadecimal digits.
#[tactic(auto, using(crate::proofs::Printed::hex_more))]
pub fn hex(heap: Global, bytes: &[u8]) -> Result<String, AllocError>
    ensures { IfOk result (λ s. string_bytes s ≡ hexed bytes.now) }
{
    let mut text = String::new(heap);
    for &b in bytes {
        text.push(digit(b / 16))?;
        text.push(digit(b % 16))?;
    }
    Ok(text)
}
