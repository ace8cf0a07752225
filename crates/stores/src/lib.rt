//! Stores: what the pages of a pool are read from and written to. `Store` is the one interface that generic code knows;
//! its contract stands on what a store means (specs/Meaning.antt). `StoreFault` has the refusals of all stores.
//! `WorkFile` is the open store over bytes of its own. `is_page_size` and `lay` serve all who keep pages as bytes.

#![tactic(auto)]

mod faults;
mod file;
mod pages;
mod store;
mod works;

pub use faults::{Layer, StoreFault};
pub use file::WorkFile;
pub use pages::{is_page_size, lay};
pub use store::Store;
