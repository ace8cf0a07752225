//! The demonstration: a bundle of two deliveries and a work file, from opening to refusals.

use crate::simulate;
use bundles::Bundle;
use console::{RefusalLine, hex, page_text};
use keys::{DeliveryKey, Key, PageNo};
use std::fmt::Display;
use stores::{Store, StoreFault, WorkFile};

// Household records of six bytes, a district and an income, one to a page: delivery 7 in whole currency, delivery 12 in
// thousands. Both have a page 0 and a page 1.
const PAGE: usize = 6;

const BUNDLE: &[u8] = &[
    2, 0, // two rows
    7, 0, 0, 2, 0, 0, 0, // delivery 7, whole currency, 2 pages
    12, 0, 1, 2, 0, 0, 0, // delivery 12, thousands, 2 pages
    4, 0, 0, 0, // four pages
    3, 0, 240, 160, 0, 0, // 7/0: district 3, 41,200
    5, 0, 100, 150, 0, 0, // 7/1: district 5, 38,500
    3, 0, 52, 0, 0, 0, // 12/0: district 3, 52 thousand
    9, 0, 44, 0, 0, 0, // 12/1: district 9, 44 thousand
];

pub(crate) fn run(rt: &HostRuntime) -> anyhow::Result<()> {
    sections(rt)?;
    namesakes(rt)?;
    refusals(rt)?;
    damaged(rt)?;
    work_file(rt)?;
    list_machine(rt)
}

fn list_machine(rt: &HostRuntime) -> anyhow::Result<()> {
    rt.println("the list machine with 3 frames, each key borrowed and returned:")?;
    simulate::sample(rt, 3, "1 2 3 1 4 2 5 1 4")?;
    rt.println("with 2 frames, 1 and 2 kept, then 2 returned:")?;
    simulate::sample(rt, 2, "1+ 2+ 3 -2 3")
}

fn sections(rt: &HostRuntime) -> anyhow::Result<()> {
    let heap = rt.alloc();
    rt.println("a bundle of two deliveries, with pages of 6 bytes:")?;
    let rows = hex(heap, &BUNDLE[0..16])?;
    println!(rt; "  section one: {rows}")?;
    let pages = hex(heap, &BUNDLE[16..])?;
    println!(rt; "  section two: {pages}")?;
    let text = console::describe(heap, BUNDLE, PAGE)?;
    rt.print(text.as_str())?;
    Ok(())
}

// One line for a key and what a read of its page gives.
fn show<K: Key + Display, S: Store<K>>(
    rt: &HostRuntime,
    store: &mut S,
    key: &K,
) -> anyhow::Result<()> {
    let text = page_text(rt.alloc(), store, key)?;
    println!(rt; "  page {key} => {text}")?;
    Ok(())
}

fn namesakes(rt: &HostRuntime) -> anyhow::Result<()> {
    rt.println("pages of the same number in both deliveries, each under its own key:")?;
    let mut bundle = Bundle::new(BUNDLE, PAGE)?;
    for (delivery, page) in [(7, 0), (12, 0), (7, 1), (12, 1)] {
        show(rt, &mut bundle, &DeliveryKey::new(delivery, page))?;
    }
    Ok(())
}

// One line for a call and its answer.
fn answer(rt: &HostRuntime, call: &str, r: Result<(), StoreFault>) -> anyhow::Result<()> {
    match r {
        Ok(()) => println!(rt; "  {call} => done")?,
        Err(fault) => println!(rt; "  {call} => {}", RefusalLine(fault))?,
    }
    Ok(())
}

fn refusals(rt: &HostRuntime) -> anyhow::Result<()> {
    rt.println("what the bundle refuses:")?;
    let mut bundle = Bundle::new(BUNDLE, PAGE)?;
    show(rt, &mut bundle, &DeliveryKey::new(7, 2))?;
    show(rt, &mut bundle, &DeliveryKey::new(8, 0))?;
    let first = DeliveryKey::new(7, 0);
    answer(
        rt,
        "read 7/0 into 5 bytes",
        bundle.read(&first, &mut [0u8; 5]),
    )?;
    answer(rt, "write 7/0", bundle.write(&first, &[0u8; 6]))
}

fn damaged(rt: &HostRuntime) -> anyhow::Result<()> {
    rt.println("the same bytes, damaged:")?;
    answer(rt, "with pages of 0 bytes", Bundle::check(BUNDLE, 0))?;
    answer(
        rt,
        "cut within the rows",
        Bundle::check(&BUNDLE[0..15], PAGE),
    )?;
    answer(
        rt,
        "with unit 2 in the first row",
        Bundle::check(&[1, 0, 7, 0, 2, 0, 0, 0, 0, 0, 0, 0, 0], PAGE),
    )?;
    answer(
        rt,
        "without the last byte",
        Bundle::check(&BUNDLE[0..43], PAGE),
    )
}

fn work_file(rt: &HostRuntime) -> anyhow::Result<()> {
    let heap = rt.alloc();
    rt.println("a work file of 3 pages of 4 bytes:")?;
    let bytes = vec![in heap; 0u8; 12]?;
    answer(
        rt,
        "with pages of 5 bytes",
        WorkFile::check(bytes.as_slice(), 5),
    )?;
    let mut file = WorkFile::new(bytes, 4).map_err(|(fault, _)| fault)?;
    show(rt, &mut file, &PageNo(1))?;
    answer(
        rt,
        "write 1, cafe0001",
        file.write(&PageNo(1), &[0xca, 0xfe, 0x00, 0x01]),
    )?;
    show(rt, &mut file, &PageNo(1))?;
    show(rt, &mut file, &PageNo(2))?;
    show(rt, &mut file, &PageNo(3))?;
    let all = hex(heap, file.bytes())?;
    println!(rt; "  all bytes => {all}")?;
    Ok(())
}
