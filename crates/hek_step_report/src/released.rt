//! What a release gave back, and whose wait that shortens: the reason of its reply.
use hek_machine::Machine;
use hek_rules::{Reply, TxnId, VersionId};
use hek_why::Step;

/// What a release gave back.
#[derive(Clone, Copy)]
pub(crate) enum Release {
    /// The last read lock of a version under a writer, which waits for so many more things.
    LastRead(VersionId, TxnId, u64),
    /// A read lock of a version, with the version's writer, and how many other readers are left.
    Read(VersionId, Option<TxnId>, u8),
    /// The lock of a bucket.
    Bucket(u64),
    /// The place of a transaction in WaitingTxnList; it waits for so many more things.
    Waiter(TxnId, u64),
}

/// What the release of a step gave back; None of a step that is no release, or had nothing to give back.
pub(crate) fn release_in(step: &Step<'_>) -> Option<Release> {
    match step.reply {
        Reply::ReleasedRead(version, Some(writer)) => {
            let waits = waits_of(step.after, *writer);
            Some(Release::LastRead(*version, *writer, waits))
        }
        Reply::ReleasedRead(version, None) => {
            let word = step.after.end_word(*version)?;
            Some(Release::Read(*version, word.writer(), word.readers()))
        }
        Reply::ReleasedBucket(bucket) => Some(Release::Bucket(*bucket)),
        Reply::ReleasedWaiter(waiter) => {
            Some(Release::Waiter(*waiter, waits_of(step.after, *waiter)))
        }
        _ => None,
    }
}

/// For how many things a transaction waits.
fn waits_of(machine: &Machine, txn: TxnId) -> u64 {
    if machine.is_declared(txn) {
        machine.waits(txn)
    } else {
        0
    }
}
