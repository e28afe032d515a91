//! Tests: elements and names stand in the order in which they were added.

use collections::{NameMap, Seq};
use std::alloc::{AllocError, Global};
use std::test::Fail;

#[test]
fn keeps_elements_in_order(rt: HostRuntime) -> Result<(), Fail> {
    let mut list = Seq::<u8>::new(rt.alloc());
    assert!(rt; list.is_empty());
    list.push(7)?;
    list.push(5)?;
    assert!(rt; list.as_slice() == [7, 5].as_slice() && list.len() == 2);
    let elements = Seq::from_vec(list.into_vec()).into_vec();
    assert!(rt; elements.as_slice() == [7, 5].as_slice());
    Ok(())
}

/// A table to which the names are added that it does not have yet.
fn table_of(alloc: Global, names: &[(&str, u16)]) -> Result<NameMap<u16>, AllocError> {
    let mut table = NameMap::new(alloc);
    for (text, value) in names {
        if !table.contains(text) {
            table.insert(String::from_str(alloc, text)?, *value)?;
        }
    }
    Ok(table)
}

#[test]
fn finds_names_where_they_were_added(rt: HostRuntime) -> Result<(), Fail> {
    let table = table_of(rt.alloc(), &[("or1", 12), ("not", 1), ("or1", 9)])?;
    assert!(rt; table.len() == 2 && table.get(2).is_none());
    assert!(rt; table.get(0) == Some(("or1", &12)));
    assert!(rt; table.get(1) == Some(("not", &1)));
    Ok(())
}
