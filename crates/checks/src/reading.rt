// The refusals of the bytes: missing, left over, and too few marks.
use crate::draft::{CROSSING, FACING, accepted, bytes_of, refused};
use net::fault::Fault;
use sheet::sheet::Sheet;
use std::test::Fail;

#[test]
fn ends_too_early(rt: HostRuntime) -> Result<(), Fail> {
    let bytes = bytes_of(rt.alloc(), 2, &FACING, &CROSSING)?;
    assert!(rt; bytes.len() == 47);
    assert!(rt; refused(&bytes[0..0], 1, 0) && refused(&bytes[0..1], 1, 1));
    assert!(rt; refused(&bytes[0..5], 1, 5) && refused(&bytes[0..37], 1, 37));
    assert!(rt; refused(&bytes[0..38], 1, 38) && refused(&bytes[0..46], 1, 46));
    assert!(rt; accepted(&bytes));
    Ok(())
}

#[test]
fn bytes_left_over(rt: HostRuntime) -> Result<(), Fail> {
    let mut bytes = bytes_of(rt.alloc(), 2, &FACING, &CROSSING)?;
    bytes.push(0)?;
    assert!(rt; refused(&bytes, 9, 47));
    Ok(())
}

#[test]
fn marks_and_sheet(rt: HostRuntime) -> Result<(), Fail> {
    let bytes = bytes_of(rt.alloc(), 2, &FACING, &CROSSING)?;
    let mut sheet = Sheet::new();
    let mut marks = [7; 97];
    assert!(rt;
        sheet.read(&bytes, &mut marks[0..95]).is_err_and(|fault| fault.refusal().number == 10
            && fault.refusal().place == 0)
    );
    assert!(rt; marks[0] == 7);
    assert!(rt; sheet.read(&bytes, &mut marks).is_ok());
    assert!(rt; marks[95] == 0 && marks[96] == 7);
    assert!(rt; sheet.read(&[2, 1], &mut marks).is_err());
    assert_eq!(rt; sheet.listing().place_count(), 4);
    Ok(())
}
