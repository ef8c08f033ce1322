//! Lists of entries, made and copied together.
use crate::asserts::{holds, is};
use hek_rules::VersionId;
use hek_txn::{EntryList, copied_lists, empty_lists};
use std::test::Fail;

#[test]
fn lists_are_made_and_copied(rt: HostRuntime) -> Result<(), Fail> {
    let mut lists = empty_lists(rt.alloc(), 2)?;
    is(&rt, lists.len(), 2);
    let list = &mut lists[1];
    holds(&rt, list.reserve(usize::MAX).is_err());
    holds(&rt, list.reserve(1).is_ok());
    list.insert(VersionId::new(6));
    let copies = copied_lists(rt.alloc(), lists.as_slice())?;
    is(&rt, copies.len(), 2);
    holds(&rt, copies[0].as_slice().is_empty());
    is(&rt, copies[1].as_slice(), [VersionId::new(6)].as_slice());
    Ok(())
}

// 40 members are more than a list looks through one by one.
#[test]
fn lists_keep_their_members_when_they_grow(rt: HostRuntime) -> Result<(), Fail> {
    let mut list = EntryList::new(rt.alloc());
    for place in 0..40 {
        list.reserve(1)?;
        holds(&rt, list.enter(VersionId::new(place)));
        list.reserve(1)?;
        holds(&rt, !list.enter(VersionId::new(place)));
    }
    holds(&rt, list.take(VersionId::new(0)));
    holds(&rt, list.take(VersionId::new(20)));
    holds(&rt, !list.contains(VersionId::new(20)));
    holds(&rt, list.contains(VersionId::new(39)));
    is(&rt, list.as_slice().len(), 38);
    is(&rt, list.copy()?.as_slice(), list.as_slice());
    is(&rt, list.first(), Some(VersionId::new(1)));
    Ok(())
}
