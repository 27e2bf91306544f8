// What sheets answer.
use crate::draft::{FACING, OUT, bytes_of, read};
use blocks::Blocks;
use listing::place::Destination;
use net::fault::WalkFault;
use sheet::fault::TrainFault;
use sheet::sheet::Sheet;
use std::test::Fail;

#[test]
fn a_new_sheet(rt: HostRuntime) {
    let sheet = Sheet::new();
    assert!(rt; sheet.listing().train_count() == 1 && sheet.listing().place_count() == 1);
    assert!(rt; sheet.move_count() == 1 && sheet.listing().has_move(0, Destination::Out));
    assert_eq!(rt; sheet.listing().start(0), Some(0));
    assert_eq!(rt; sheet.listing().start(1), None);
}

#[test]
fn conflicts_and_counts(rt: HostRuntime) -> Result<(), Fail> {
    let moves = [(0, 1), (1, OUT), (2, 3), (3, OUT), (0, 1)];
    let sheet = read(&bytes_of(rt.alloc(), 2, &FACING, &moves)?)?;
    assert!(rt; sheet.conflict(0, 3) && !sheet.conflict(0, 1));
    assert!(rt; !sheet.conflict(0, 2) && !sheet.conflict(0, 84));
    assert!(rt; sheet.conflict_count() == 2 && sheet.move_count() == 4);
    assert!(rt; sheet.places_of(1) == 2 && sheet.places_of(2) == 0);
    Ok(())
}

#[test]
fn longest_ways(rt: HostRuntime) -> Result<(), Fail> {
    let moves = [(0, 1), (0, 2), (1, 2), (2, OUT)];
    let sheet = read(&bytes_of(rt.alloc(), 1, &[(0, 1), (0, 3), (0, 12)], &moves)?)?;
    let mut marks = [9; 96];
    assert_eq!(rt; sheet.longest_way(&mut marks, 0, 0), Ok(3));
    assert_eq!(rt; marks[0], 0);
    assert_eq!(rt; sheet.longest_way(&mut marks, 0, 84), Ok(0));
    assert_eq!(rt;
        sheet.longest_way(&mut marks, 0, 96),
        Err(TrainFault::Walk(WalkFault::NoSuchNode))
    );
    assert_eq!(rt;
        sheet.longest_way(&mut marks, 1, 96),
        Err(TrainFault::UnknownTrain(1))
    );
    assert_eq!(rt;
        sheet.longest_way(&mut marks[0..95], 1, 96),
        Err(TrainFault::Walk(WalkFault::ShortMarks))
    );
    Ok(())
}

#[test]
fn sets_of_blocks(rt: HostRuntime) {
    let set = Blocks::from_bits(0x8000_0000_0000_0050);
    assert_eq!(rt; set.lowest(), Some(4));
    assert_eq!(rt; Blocks::from_bits(0).lowest(), None);
    assert!(rt; set.contains(63) && !set.contains(5) && !set.contains(64));
    assert!(rt; set.shares(Blocks::from_bits(0x40)) && !set.shares(Blocks::from_bits(0x20)));
    assert!(rt; set.count_not_in(Blocks::from_bits(0x11)) == 2 && !set.is_empty());
}
