//! Compares the plain reader of bundles with the proved one, over strings of many kinds.

#![tactic(auto)]

mod comparing;
mod examples;
mod kinds;
mod making;
mod tally;

use comparing::Comparison;
use making::Dice;
use std::io;

fn main(rt: HostRuntime) -> io::Result<()> {
    let mut c = Comparison::new(rt.alloc(), Dice::new(20_231_117));
    c.kind(&rt, "examples", examples::good)?;
    c.kind(&rt, "damaged examples", examples::damaged)?;
    c.kind(&rt, "good", kinds::good)?;
    c.kind(&rt, "cut short", kinds::cut_short)?;
    c.kind(&rt, "one byte too many", kinds::byte_too_many)?;
    c.kind(&rt, "one byte changed", kinds::byte_changed)?;
    c.kind(&rt, "page sizes", kinds::page_sizes)?;
    c.kind(&rt, "random bytes", kinds::random_bytes)?;
    c.kind(&rt, "row counts", kinds::row_counts)?;
    c.kind(&rt, "bad row of many", kinds::bad_row_of_many)?;
    c.kind(&rt, "page counts", kinds::page_counts)?;
    c.kind(&rt, "largest", kinds::largest)?;
    c.kind(&rt, "page totals", kinds::page_totals)?;
    c.kind(&rt, "units", kinds::units)?;
    c.kind(&rt, "listed twice", kinds::listed_twice)?;
    let all = c.all;
    println!(rt; "all kinds: {all}")?;
    let strings = all.strings();
    let differ = all.differ();
    println!(rt; "{strings} strings, {differ} differ")
}
