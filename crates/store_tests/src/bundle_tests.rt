//! Bundles.

use crate::refusal;
use bundles::{AmountUnit, Bundle};
use keys::{DeliveryKey, DeliveryNo};
use std::alloc::{AllocError, Global};
use std::test::Fail;
use stores::{Store, StoreFault};

// Delivery 7, in thousands, with the pages AA and BB.
const SMALL: [u8; 15] = [1, 0, 7, 0, 1, 2, 0, 0, 0, 2, 0, 0, 0, 0xaa, 0xbb];

// A bundle of `count` rows for the deliveries 0, 1, 2, .., each with no page.
fn empty_rows(heap: Global, count: u16) -> Result<Vec<u8>, AllocError> {
    let mut bytes = Vec::new(heap);
    bytes.extend_from_slice(&count.to_le_bytes())?;
    for delivery in 0..count {
        bytes.extend_from_slice(&delivery.to_le_bytes())?;
        bytes.extend_from_slice(&[0, 0, 0, 0, 0])?;
    }
    bytes.extend_from_slice(&[0, 0, 0, 0])?;
    Ok(bytes)
}

#[test]
fn six_zero_bytes_open_and_hold_no_key(rt: HostRuntime) -> Result<(), Fail> {
    let bytes = [0u8; 6];
    Bundle::check(&bytes, 1)?;
    let bundle = Bundle::open(&bytes, 1);
    assert_eq!(rt; bundle.row_count(), 0);
    assert!(rt; !bundle.holds(&DeliveryKey::new(0, 0)));
    assert!(rt; !bundle.holds(&DeliveryKey::new(7, 1)));
    Ok(())
}

#[test]
fn gives_each_key_its_page_and_9_past_the_last(rt: HostRuntime) -> Result<(), Fail> {
    Bundle::check(&SMALL, 1)?;
    let mut bundle = Bundle::open(&SMALL, 1);
    let mut buffer = [0u8; 1];
    assert_eq!(rt;
        refusal(bundle.read(&DeliveryKey::new(7, 1), &mut buffer)),
        None
    );
    assert_eq!(rt; buffer[0], 0xbb);
    assert_eq!(rt;
        refusal(bundle.read(&DeliveryKey::new(7, 0), &mut buffer)),
        None
    );
    assert_eq!(rt; buffer[0], 0xaa);
    assert_eq!(rt;
        refusal(bundle.read(&DeliveryKey::new(7, 2), &mut buffer)),
        Some(9)
    );
    assert_eq!(rt;
        refusal(bundle.read(&DeliveryKey::new(8, 0), &mut buffer)),
        Some(9)
    );
    assert_eq!(rt; buffer[0], 0xaa);
    Ok(())
}

#[test]
fn refuses_a_page_size_outside_1_to_4096(rt: HostRuntime) {
    let bytes = [0u8; 6];
    assert_eq!(rt; refusal(Bundle::check(&bytes, 0)), Some(1));
    assert_eq!(rt; refusal(Bundle::check(&bytes, 1)), None);
    assert_eq!(rt; refusal(Bundle::check(&bytes, 4096)), None);
    assert_eq!(rt; refusal(Bundle::check(&bytes, 4097)), Some(1));
}

#[test]
fn refuses_257_rows_and_rows_that_are_not_there(rt: HostRuntime) -> Result<(), Fail> {
    let most = empty_rows(rt.alloc(), 256)?;
    assert_eq!(rt; refusal(Bundle::check(most.as_slice(), 1)), None);
    let more = empty_rows(rt.alloc(), 257)?;
    assert_eq!(rt; refusal(Bundle::check(more.as_slice(), 1)), Some(5));
    assert_eq!(rt; refusal(Bundle::check(&[], 1)), Some(5));
    assert_eq!(rt; refusal(Bundle::check(&[0], 1)), Some(5));
    assert_eq!(rt; refusal(Bundle::check(&SMALL[0..8], 1)), Some(5));
    assert_eq!(rt; refusal(Bundle::check(&SMALL[0..9], 1)), Some(7));
    Ok(())
}

#[test]
fn refuses_a_wrong_row_whichever_it_is(rt: HostRuntime) -> Result<(), Fail> {
    for row in 0..5usize {
        let mut unit = empty_rows(rt.alloc(), 5)?;
        if let Some(b) = unit.get_mut(2 + 7 * row + 2) {
            *b = 2;
        }
        assert_eq!(rt; refusal(Bundle::check(unit.as_slice(), 1)), Some(6));
        let mut pages = empty_rows(rt.alloc(), 5)?;
        if let Some(b) = pages.get_mut(2 + 7 * row + 5) {
            *b = 16;
        }
        assert_eq!(rt; refusal(Bundle::check(pages.as_slice(), 1)), Some(7));
        if let Some(b) = pages.get_mut(2 + 7 * row + 3) {
            *b = 1;
        }
        assert_eq!(rt; refusal(Bundle::check(pages.as_slice(), 1)), Some(6));
    }
    for row in 1..5usize {
        let mut twice = empty_rows(rt.alloc(), 5)?;
        if let Some(b) = twice.get_mut(2 + 7 * row) {
            *b = 0;
        }
        assert_eq!(rt; refusal(Bundle::check(twice.as_slice(), 1)), Some(6));
    }
    Ok(())
}

#[test]
fn refuses_a_byte_too_few_and_a_byte_too_many(rt: HostRuntime) -> Result<(), Fail> {
    assert_eq!(rt; refusal(Bundle::check(&SMALL[0..14], 1)), Some(7));
    let mut more = SMALL.to_vec(rt.alloc())?;
    more.push(0)?;
    assert_eq!(rt; refusal(Bundle::check(more.as_slice(), 1)), Some(7));
    assert_eq!(rt; refusal(Bundle::check(&SMALL, 2)), Some(7));
    Ok(())
}

#[test]
fn asks_15_before_9_before_13_and_changes_nothing(rt: HostRuntime) -> Result<(), Fail> {
    Bundle::check(&SMALL, 1)?;
    let mut bundle = Bundle::open(&SMALL, 1);
    let mut short = [];
    let mut long = [3u8, 4];
    assert_eq!(rt;
        refusal(bundle.read(&DeliveryKey::new(7, 2), &mut short)),
        Some(15)
    );
    assert_eq!(rt;
        refusal(bundle.read(&DeliveryKey::new(7, 1), &mut long)),
        Some(15)
    );
    assert_eq!(rt; long, [3, 4]);
    assert_eq!(rt;
        refusal(bundle.write(&DeliveryKey::new(7, 2), &long)),
        Some(15)
    );
    assert_eq!(rt;
        refusal(bundle.write(&DeliveryKey::new(7, 2), &[1])),
        Some(9)
    );
    assert_eq!(rt;
        refusal(bundle.write(&DeliveryKey::new(7, 1), &[1])),
        Some(13)
    );
    let mut buffer = [0u8; 1];
    assert_eq!(rt;
        refusal(bundle.read(&DeliveryKey::new(7, 1), &mut buffer)),
        None
    );
    assert_eq!(rt; buffer[0], 0xbb);
    Ok(())
}

#[test]
fn answers_unit_and_page_count_or_9(rt: HostRuntime) -> Result<(), Fail> {
    Bundle::check(&SMALL, 1)?;
    let bundle = Bundle::open(&SMALL, 1);
    assert_eq!(rt; bundle.page_count(DeliveryNo(7)), Ok(2));
    assert_eq!(rt; bundle.page_count(DeliveryNo(8)), Err(StoreFault::NotHeld));
    assert_eq!(rt; bundle.unit(DeliveryNo(7)), Ok(AmountUnit::Thousands));
    assert_eq!(rt; bundle.unit(DeliveryNo(0)), Err(StoreFault::NotHeld));
    Ok(())
}
