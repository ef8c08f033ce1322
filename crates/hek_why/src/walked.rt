//! The versions that an event's walk goes over, and what its transaction sees of them.
ghost use Rattle.std.specs.Prelude.{◌≡◌, ◌==◌, IfOk};
ghost use Rattle.hek_rules.specs.World.{bucket_of};
ghost use Rattle.hek_rules.specs.Visibility.{is_seen};
ghost use Rattle.hek_rules.specs.Walk.{of_key, of_bucket, seen_of, last};
ghost use Rattle.hek_txn.specs.TxnTable.{Declared};
ghost use Rattle.hek_machine.specs.Judgements.{IsShown};
ghost use Rattle.hek_why.specs.Passed.{version_passes};
ghost use Rattle.hek_why.specs.Looks.{looked_reasons};

use crate::kept::keep_if;
use crate::reason::Reason;
use crate::see::see;
use hek_machine::Machine;
use hek_rules::{NoMemory, Sight, TxnId, VersionId};
use std::alloc::Global;

fn is_of_key(machine: &Machine, key: u64, v: VersionId) -> bool
    ensures { IsShown machine.now (λ w. version_passes (λ v x. x.key == key) v w) result }
{
    machine.key_of(v) == Some(key)
}

/// Whether a version's key is in a bucket.
pub(crate) fn is_of_bucket(machine: &Machine, bucket: u64, v: VersionId) -> bool
    ensures { IsShown machine.now (λ w. version_passes (λ v x. bucket_of w x.key == bucket) v w) result }
{
    // The contract of `clock` gives that the machine has at least one bucket.
    let _ = machine.clock();
    match machine.key_of(v) {
        None => false,
        Some(key) => key % machine.buckets() == bucket,
    }
}

/// The versions of a key, in order of creation.
pub(crate) fn versions_of(
    alloc: Global,
    machine: &Machine,
    key: u64,
) -> Result<Vec<VersionId>, NoMemory>
    ensures { IfOk result (λ vs. IsShown machine.now (λ w. of_key w key) vs.items) }
{
    let mut versions = Vec::new(alloc);
    for index in 0..machine.versions() {
        let v = VersionId::new(index as u64);
        keep_if(is_of_key(machine, key, v), v, &mut versions)?;
    }
    Ok(versions)
}

/// The versions of all keys of a bucket, in order of creation.
pub(crate) fn versions_in(
    alloc: Global,
    machine: &Machine,
    bucket: u64,
) -> Result<Vec<VersionId>, NoMemory>
    ensures { IfOk result (λ vs. IsShown machine.now (λ w. of_bucket w bucket) vs.items) }
{
    let mut versions = Vec::new(alloc);
    for index in 0..machine.versions() {
        let v = VersionId::new(index as u64);
        keep_if(is_of_bucket(machine, bucket, v), v, &mut versions)?;
    }
    Ok(versions)
}

fn is_seen(sight: Sight) -> bool
    ensures { result ≡ is_seen sight }
{
    matches!(sight, Sight::Seen | Sight::SeenIf(_))
}

/// The last of these versions that a transaction sees.
pub(crate) fn last_seen(machine: &Machine, t: TxnId, vs: &[VersionId]) -> Option<VersionId>
    requires { Declared machine.now.txns t }
    ensures { IsShown machine.now (λ w. last (seen_of w t vs.now)) result }
{
    let mut seen = None;
    for v in vs {
        if is_seen(see(machine, t, *v)) {
            seen = Some(*v);
        }
    }
    seen
}

/// What a transaction sees of each of these versions at its read time: a reason `Looked` for each, in their order.
pub fn looks(
    alloc: Global,
    machine: &Machine,
    t: TxnId,
    vs: &[VersionId],
) -> Result<Vec<Reason>, NoMemory>
    requires { Declared machine.now.txns t }
    ensures { IfOk result (λ list. IsShown machine.now (λ w. looked_reasons w t vs.now) list.items) }
{
    let mut list = Vec::new(alloc);
    for v in vs {
        let version = *v;
        let sight = see(machine, t, version);
        list.push(Reason::Looked { version, sight })?;
    }
    Ok(list)
}
