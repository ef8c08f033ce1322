//! The number by which a class is looked up: classes that go on alike have the same one, and two others hardly ever. No
//! contract says so: by another number a class would go unfound, and its orders would be counted beside those of its
//! likes.
use crate::key::Key;
use std::hash::{FoldHasher, Hash, Hasher};

/// The number by which a class with these moves left and this key is looked up.
pub(crate) fn spot_of(left: &[u64], key: &Key) -> u64 {
    let mut hasher = FoldHasher::default();
    left.hash(&mut hasher);
    hasher.write(key.bytes());
    hasher.finish()
}
