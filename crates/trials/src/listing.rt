use lists::FixedList;
use std::test::Fail;

/// A list in three places.
type Three = FixedList<u32, 3>;

#[test]
fn a_new_list_is_empty(rt: HostRuntime) {
    let mut list = Three::new();
    assert!(rt; list.is_empty());
    assert!(rt; list.as_slice().is_empty());
    assert_eq!(rt; list.front(), None);
    assert_eq!(rt; list.pop(), None);
}

#[test]
fn a_slice_that_fits_becomes_a_list(rt: HostRuntime) -> Result<(), Fail> {
    let items = [7, 8, 9, 10];
    for count in 0..4usize {
        let fitting = &items[..count];
        let list = Three::from_slice(fitting).ok_or_else(|| Fail::new("no list"))?;
        assert_eq!(rt; list.len(), count);
        assert_eq!(rt; list.is_empty(), count == 0);
        assert_eq!(rt; list.as_slice(), fitting);
    }
    assert!(rt; Three::from_slice(&items).is_none());
    Ok(())
}

#[test]
fn an_item_beyond_the_places_is_handed_back(rt: HostRuntime) {
    let mut list = Three::new();
    // what fills a place with no item is an item like others
    for item in [0, 8, 0] {
        assert_eq!(rt; list.push(item), Ok(()));
    }
    assert_eq!(rt; list.push(9), Err(9));
    assert_eq!(rt; list.as_slice(), [0, 8, 0].as_slice());
}

#[test]
fn a_list_lets_out_its_first_item(rt: HostRuntime) {
    let mut list = Three::new();
    for item in [7, 8, 9] {
        assert_eq!(rt; list.push(item), Ok(()));
    }
    assert_eq!(rt; list.pop(), Some(7));
    assert_eq!(rt; list.front(), Some(8));
    assert_eq!(rt; list.push(10), Ok(()));
    assert_eq!(rt; list.as_slice(), [8, 9, 10].as_slice());
    list.clear();
    assert!(rt; list.is_empty());
    assert_eq!(rt; list.push(11), Ok(()));
    assert_eq!(rt; list.as_slice(), [11].as_slice());
}
