//! Small lists of no, one and several items.
use std::alloc::Global;
use std::test::Fail;
use sym_base::{NoMemory, SmallList};

fn list(alloc: Global, numbers: &[i64]) -> Result<SmallList<i64>, NoMemory> {
    let mut list = SmallList::new(alloc);
    'numbers: for number in numbers {
        list.push(*number)?;
    }
    Ok(list)
}

#[test]
fn a_list_grows_is_copied_and_is_used_again(rt: HostRuntime) -> Result<(), Fail> {
    let rows: [&[i64]; 4] = [&[], &[5], &[5, 6], &[5, 6, 7, 8, 9]];
    for numbers in rows {
        let list = list(rt.alloc(), numbers)?;
        assert_eq!(rt; (list.as_slice(), list.len()), (numbers, numbers.len()));
        let found = (list.is_empty(), list.get(0));
        assert_eq!(rt; found, (numbers.is_empty(), numbers.get(0)));
        let mut copied = list.copy(rt.alloc())?;
        assert_eq!(rt; copied.as_slice(), numbers);
        copied.truncate(1);
        assert_eq!(rt; (copied.get(0), copied.get(1)), (numbers.get(0), None));
        copied.truncate(0);
        copied.push(4)?;
        assert_eq!(rt; copied.as_slice(), [4].as_slice());
    }
    Ok(())
}

#[test]
fn items_are_put_in_written_and_dropped_at_a_place(rt: HostRuntime) -> Result<(), Fail> {
    let mut list = SmallList::new(rt.alloc());
    list.insert(0, 7)?;
    if let Some(item) = list.get_mut(0) {
        *item = 8;
    }
    assert_eq!(rt; list.get_mut(1).is_none(), true);
    assert_eq!(rt; list.as_slice(), [8].as_slice());
    list.insert(0, 5)?;
    list.insert(1, 6)?;
    assert_eq!(rt; list.as_slice(), [5, 6, 8].as_slice());
    list.set(1, 2);
    list.remove(3);
    list.remove(0);
    assert_eq!(rt; (list.replace(1, 1), list.replace(2, 1)), (Some(8), None));
    assert_eq!(rt; list.as_slice(), [2, 1].as_slice());
    Ok(())
}

#[test]
fn an_item_alone_is_replaced_and_dropped(rt: HostRuntime) -> Result<(), Fail> {
    let mut list = list(rt.alloc(), &[3])?;
    list.set(1, 9);
    list.remove(1);
    assert_eq!(rt; (list.replace(0, 4), list.replace(1, 4)), (Some(3), None));
    assert_eq!(rt; list.as_slice(), [4].as_slice());
    list.remove(0);
    assert_eq!(rt; list.is_empty(), true);
    Ok(())
}
