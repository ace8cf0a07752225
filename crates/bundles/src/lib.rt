//! Bundles: the sealed store of deliveries, read out of bytes that it borrows. The format stands in specs/Format.antt,
//! byte by byte; what a bundle holds, in specs/Contents.antt.

#![tactic(auto)]

mod bundle;
mod deliveries;
mod opening;
mod reading;
mod rows;

pub use bundle::{Bundle, Deliveries};
pub use rows::{AmountUnit, Delivery};
