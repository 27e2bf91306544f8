// Sizes at their limits.
use crate::draft::{OUT, accepted, bytes_of, refused};
use std::alloc::{AllocError, Global};
use std::test::Fail;

// So many trains and places: each start in a block of its own, further places in block 0 by train 0.
fn crowd(heap: Global, trains: u8, places: u8) -> Result<Vec<u8>, AllocError> {
    let mut bytes = Vec::new(heap);
    bytes.push(trains)?;
    bytes.push(places)?;
    bytes.extend((0..places).map(|place| if place < trains { place } else { 0 }))?;
    // eight bytes a turn
    for place in 0..places {
        let block: u64 = if place < trains { 1 << (place % 64) } else { 1 };
        bytes.extend_from_slice(&block.to_be_bytes())?;
    }
    bytes.push(0)?;
    Ok(bytes)
}

#[test]
fn trains(rt: HostRuntime) -> Result<(), Fail> {
    assert!(rt; refused(&crowd(rt.alloc(), 0, 1)?, 2, 0));
    assert!(rt; accepted(&crowd(rt.alloc(), 12, 12)?));
    assert!(rt; refused(&crowd(rt.alloc(), 13, 13)?, 2, 0));
    Ok(())
}

#[test]
fn places(rt: HostRuntime) -> Result<(), Fail> {
    assert!(rt; refused(&crowd(rt.alloc(), 3, 2)?, 2, 1));
    assert!(rt; accepted(&crowd(rt.alloc(), 3, 84)?));
    assert!(rt; refused(&crowd(rt.alloc(), 3, 85)?, 2, 1));
    Ok(())
}

#[test]
fn moves(rt: HostRuntime) -> Result<(), Fail> {
    let moves = [(0, OUT); 201];
    assert!(rt; accepted(&bytes_of(rt.alloc(), 1, &[(0, 1)], &moves[0..200])?));
    assert!(rt; refused(&bytes_of(rt.alloc(), 1, &[(0, 1)], &moves)?, 2, 11));
    Ok(())
}
