//! Work files.

use crate::refusal;
use keys::PageNo;
use std::test::Fail;
use stores::{Store, WorkFile};

#[test]
fn refuses_a_page_size_outside_1_to_4096(rt: HostRuntime) -> Result<(), Fail> {
    let bytes = vec![in rt.alloc(); 0u8; 4096]?;
    assert_eq!(rt; refusal(WorkFile::check(bytes.as_slice(), 0)), Some(1));
    assert_eq!(rt; refusal(WorkFile::check(bytes.as_slice(), 1)), None);
    assert_eq!(rt; refusal(WorkFile::check(bytes.as_slice(), 4096)), None);
    assert_eq!(rt; refusal(WorkFile::check(bytes.as_slice(), 4097)), Some(1));
    Ok(())
}

#[test]
fn refuses_a_part_of_a_page_and_more_than_1048576_pages(rt: HostRuntime) -> Result<(), Fail> {
    let mut bytes = vec![in rt.alloc(); 0u8; 1_048_576]?;
    assert_eq!(rt; refusal(WorkFile::check(bytes.as_slice(), 1)), None);
    assert_eq!(rt; refusal(WorkFile::check(bytes.as_slice(), 3)), Some(8));
    bytes.push(0)?;
    assert_eq!(rt; refusal(WorkFile::check(bytes.as_slice(), 1)), Some(8));
    assert_eq!(rt; refusal(WorkFile::check(bytes.as_slice(), 2)), Some(8));
    assert_eq!(rt; refusal(WorkFile::check(&[], 7)), None);
    Ok(())
}

#[test]
fn writes_a_page_and_no_other(rt: HostRuntime) -> Result<(), Fail> {
    let bytes = [1u8, 2, 3, 4, 5, 6].to_vec(rt.alloc())?;
    WorkFile::check(bytes.as_slice(), 2)?;
    let mut file = WorkFile::open(bytes, 2);
    assert!(rt; file.is_open());
    assert!(rt; file.holds(&PageNo(2)));
    assert!(rt; !file.holds(&PageNo(3)));
    assert_eq!(rt; refusal(file.write(&PageNo(1), &[8, 9])), None);
    assert_eq!(rt; file.bytes(), [1u8, 2, 8, 9, 5, 6].as_slice());
    let mut buffer = [0u8; 2];
    assert_eq!(rt; refusal(file.read(&PageNo(1), &mut buffer)), None);
    assert_eq!(rt; buffer, [8, 9]);
    Ok(())
}

#[test]
fn asks_15_before_9_and_changes_nothing(rt: HostRuntime) -> Result<(), Fail> {
    let bytes = [1u8, 2, 3, 4].to_vec(rt.alloc())?;
    WorkFile::check(bytes.as_slice(), 2)?;
    let mut file = WorkFile::open(bytes, 2);
    let mut long = [7u8, 7, 7];
    assert_eq!(rt; refusal(file.read(&PageNo(2), &mut long)), Some(15));
    assert_eq!(rt; refusal(file.write(&PageNo(2), &long)), Some(15));
    assert_eq!(rt; refusal(file.write(&PageNo(0), &[7])), Some(15));
    assert_eq!(rt; refusal(file.write(&PageNo(2), &[7, 7])), Some(9));
    assert_eq!(rt;
        refusal(file.read(&PageNo(u32::MAX), &mut long[0..2])),
        Some(9)
    );
    assert_eq!(rt; long[0], 7);
    let back = file.into_bytes();
    assert_eq!(rt; back.as_slice(), [1u8, 2, 3, 4].as_slice());
    Ok(())
}
