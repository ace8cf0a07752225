//! What the program prints, as text that is stated: lines of refusals, deliveries and bundles, and bytes in hexadecimal.

#![tactic(auto)]

mod lines;
mod listings;
mod pages;

pub use lines::{DeliveryLine, RefusalLine};
pub use listings::{describe, hex};
pub use pages::page_text;
