// Walks over a small net.
use crate::chain::Chain;
use net::circle::find_circle;
use net::fault::WalkFault;
use net::longest::longest_way;

#[test]
fn a_row_has_no_circle(rt: HostRuntime) {
    let row = Chain::of_five(false);
    let mut marks = [7; 100];
    assert_eq!(rt; find_circle(&row, &mut marks), Ok(None));
    assert_eq!(rt; marks[0], 0);
    assert_eq!(rt; marks[95], 0);
    assert_eq!(rt; marks[96], 7);
    assert_eq!(rt; longest_way(&row, &mut marks, 1), Ok(Some(21)));
    assert_eq!(rt; longest_way(&row, &mut marks, 4), Ok(Some(0)));
}

#[test]
fn an_arc_back_makes_a_circle(rt: HostRuntime) {
    let ring = Chain::of_five(true);
    let mut marks = [7; 100];
    assert_eq!(rt; find_circle(&ring, &mut marks), Ok(Some(1)));
    assert_eq!(rt; marks[2], 0);
    assert_eq!(rt; marks[99], 7);
    assert_eq!(rt; longest_way(&ring, &mut marks, 3), Ok(None));
}

#[test]
fn refused_walks(rt: HostRuntime) {
    let row = Chain::of_five(false);
    let mut marks = [7; 96];
    assert_eq!(rt;
        find_circle(&row, &mut marks[0..95]),
        Err(WalkFault::ShortMarks)
    );
    assert_eq!(rt;
        longest_way(&row, &mut marks[0..95], 5),
        Err(WalkFault::ShortMarks)
    );
    assert_eq!(rt;
        longest_way(&row, &mut marks, 5),
        Err(WalkFault::NoSuchNode)
    );
    assert_eq!(rt; marks[0], 7);
}
