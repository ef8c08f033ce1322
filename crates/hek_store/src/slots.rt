//! Slots: classes of keys, each with a chain of versions.
ghost use Rattle.std.specs.Prelude.{◌≡◌, ◌%◌, ◌<◌, ◌≤◌, ◌^◌, vec_len, vec_capacity, length, map, IfOk};
ghost use Rattle.hek_store.specs.Chained.{keys_of};
ghost use Rattle.hek_store.specs.Indexed.{AreBuckets};

use crate::chains::{Ends, append, no_ends};
use crate::version::Version;
use hek_rules::{NoMemory, TxnId};

/// The number of slots, the links and the ends of their chains, the link that each slot starts at, for all and for its
/// owner, and the owners.
#[derive(Drop)]
pub(crate) struct Spread {
    pub(crate) slots: u64,
    pub(crate) links: Vec<u32>,
    pub(crate) ends: Vec<Ends>,
    pub(crate) starts: Vec<u32>,
    pub(crate) own_starts: Vec<u32>,
    pub(crate) owners: Vec<TxnId>,
}

/// The slot of a key. A key below the number of slots needs no division.
pub(crate) fn slot_of(key: u64, slots: u64) -> usize
    requires { 0 < slots }
    ensures { result ≡ key % slots }
{
    if key < slots {
        key as usize
    } else {
        (key % slots) as usize
    }
}

/// The bucket of a key. A number of buckets that is a power of two needs no division.
#[tactic(auto, using(crate::proofs::Masks::masked))]
pub(crate) fn bucket_in(key: u64, buckets: u64) -> u64
    requires { 0 < buckets }
    ensures { result ≡ key % buckets }
{
    let mask = buckets - 1;
    if buckets & mask == 0 {
        key & mask
    } else {
        key % buckets
    }
}

/// The chains of these versions over about as many slots as there is room for versions, with room for as many links.
pub(crate) fn spread_over(versions: &Vec<Version>) -> Result<Spread, NoMemory>
    requires few { length versions.now.items < 2 ^ 32 }
    ensures any { IfOk result (λ s. 0 < s.slots) }
    ensures chained { IfOk result (λ s. AreBuckets s.slots (keys_of versions.now.items) s.links.items s.ends.items) }
    ensures len { IfOk result (λ s. vec_len s.links ≡ vec_len versions.now) }
    ensures room { IfOk result (λ s. vec_capacity versions.now ≤ vec_capacity s.links) }
    ensures starts { IfOk result (λ s. s.starts.items ≡ map (λ e. e.first) s.ends.items) }
    ensures own_starts { IfOk result (λ s. s.own_starts.items ≡ s.starts.items) }
    ensures owners { IfOk result (λ s. length s.owners.items ≡ s.slots) }
{
    let alloc = *versions.allocator();
    let count = versions.capacity();
    // An odd number of slots keeps keys apart that differ by a power of two.
    let slots = count as u64 / 2 * 2 + 1;
    let mut links = Vec::with_capacity(alloc, count)?;
    let mut ends = no_ends(alloc, slots)?;
    for place in 0..versions.len() {
        let slot = (versions[place].key % slots) as usize;
        let now = append(&mut links, ends[slot]);
        ends[slot] = now;
    }
    let mut starts = Vec::with_capacity(alloc, ends.len())?;
    for slot in 0..ends.len() {
        starts.push_reserved(ends[slot].first);
    }
    let own_starts = Vec::from_slice(alloc, starts.as_slice())?;
    let owners = vec![in alloc; TxnId::new(0); slots as usize]?;
    Ok(Spread {
        slots,
        links,
        ends,
        starts,
        own_starts,
        owners,
    })
}
