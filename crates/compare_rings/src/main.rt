//! Plays long pseudo-random runs, with loans that are kept, on the ring over cells and on the simulator on a plain list, at
//! both kinds of key, and compares each answer and then the whole ring.

#![tactic(auto)]

mod playing;
mod tally;

use keys::{DeliveryKey, PageNo};

const FRAMES: [u32; 9] = [2, 3, 4, 5, 6, 7, 8, 9, 64];

fn main(rt: HostRuntime) -> anyhow::Result<()> {
    let heap = rt.alloc();
    for m in FRAMES {
        let pages = playing::play::<PageNo>(heap, m)?;
        println!(rt; "m {m}, page keys: {pages}")?;
        let deliveries = playing::play::<DeliveryKey>(heap, m)?;
        println!(rt; "m {m}, delivery keys: {deliveries}")?;
    }
    Ok(())
}
