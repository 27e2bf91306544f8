// The rules of places and moves, and those of the whole yard.
use crate::draft::{FACING, OUT, accepted, bytes_of, refused, refuses};
use std::test::Fail;

#[test]
fn places(rt: HostRuntime) -> Result<(), Fail> {
    assert!(rt; refuses(rt.alloc(), 2, &[(0, 1), (2, 2), (3, 4)], &[], 3, 3)?);
    assert!(rt; refuses(rt.alloc(), 2, &[(1, 1), (1, 2)], &[], 3, 0)?);
    assert!(rt; refuses(rt.alloc(), 1, &[(0, 1), (0, 0)], &[], 4, 12)?);
    Ok(())
}

#[test]
fn moves(rt: HostRuntime) -> Result<(), Fail> {
    assert!(rt; refuses(rt.alloc(), 2, &FACING, &[(0, OUT), (4, OUT)], 5, 40)?);
    assert!(rt; refuses(rt.alloc(), 2, &FACING, &[(0, OUT), (0, 4)], 5, 42)?);
    assert!(rt; refuses(rt.alloc(), 2, &FACING, &[(0, OUT), (0, 3)], 5, 40)?);
    Ok(())
}

#[test]
fn circles_and_starts(rt: HostRuntime) -> Result<(), Fail> {
    assert!(rt; refuses(rt.alloc(), 2, &FACING, &[(0, 1), (2, 3), (3, 2)], 6, 1)?);
    assert!(rt; refuses(rt.alloc(), 2, &FACING, &[(0, 0), (2, 3), (3, 2)], 6, 0)?);
    assert!(rt; refuses(rt.alloc(), 3, &[(0, 1), (1, 6), (2, 12), (1, 1)], &[], 7, 1)?);
    Ok(())
}

// Train 0 has 25 places and train 1 has 40 places in block 2: 1,000 conflicting pairs; one pair more in block 3.
#[test]
fn conflicts(rt: HostRuntime) -> Result<(), Fail> {
    let mut places = [(0, 1), (1, 2), (0, 8)].to_vec(rt.alloc())?;
    places.extend_from_slice(&[(0, 4); 25])?;
    places.extend_from_slice(&[(1, 4); 40])?;
    assert!(rt; accepted(&bytes_of(rt.alloc(), 2, &places, &[])?));
    places.push((1, 8))?;
    assert!(rt; refused(&bytes_of(rt.alloc(), 2, &places, &[])?, 8, 0));
    Ok(())
}
