// Lists of a few items, at the limits of their room.
use lists::{Full, ShortList};

#[test]
fn room_for_three_items_and_no_more(rt: HostRuntime) {
    let mut list = ShortList::<u8, 3>::new();
    for item in [5, 6, 7] {
        assert_eq!(rt; list.push(item), Ok(()));
    }
    assert_eq!(rt; list.push(8), Err(Full));
    assert_eq!(rt;
        list.as_slice(),
        [5, 6, 7].as_slice(),
        "a refused item leaves the list"
    );
    assert_eq!(rt; list.len(), 3);
}

#[test]
fn a_copy_is_apart_from_the_list(rt: HostRuntime) {
    let mut list = ShortList::<u8, 3>::new();
    assert_eq!(rt; list.push(5), Ok(()));
    let mut copy = list;
    assert_eq!(rt; copy.push(6), Ok(()));
    assert_eq!(rt; list.as_slice(), [5].as_slice());
    assert_eq!(rt; copy.as_slice(), [5, 6].as_slice());
}

#[test]
fn no_room_at_all(rt: HostRuntime) {
    let mut list = ShortList::<u8, 0>::new();
    assert_eq!(rt; list.push(5), Err(Full));
    assert_eq!(rt; list.len(), 0);
    assert!(rt; list.as_slice().is_empty());
}
