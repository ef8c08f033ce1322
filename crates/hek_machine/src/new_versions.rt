//! New versions: the room for a version, the version, and the waits that it causes (section 4 of the paper: bucket
//! locks and phantoms).
ghost use Rattle.std.specs.Prelude.{◌≡◌, ◌<◌, ◌%◌, true, None, [], length, IfOk, OnOk, OnErr};
ghost use Rattle.std.specs.List.{All};
ghost use Rattle.hek_rules.specs.World.{txn_in, bucket_of};
ghost use Rattle.hek_rules.specs.Checks.{is_open};
ghost use Rattle.hek_txn.specs.TxnTable.{Declared};
ghost use Rattle.hek_machine.specs.Judgements.{IsAimed};
ghost use Rattle.hek_rules.specs.Aims.{purpose_of};
ghost use Rattle.hek_machine.specs.Room.{HasRoom, CanMake, Reserved};
ghost use Rattle.hek_buckets.specs.LockLists.{holders_of as holders_in};
ghost use Rattle.hek_machine.specs.Stands.{Shows, StandsForSome, IsRule, StillShows};
ghost use Rattle.hek_machine.specs.Walked.{CanAddVersion, IsAdding, reply_or_abort};
ghost use Rattle.hek_rules.specs.declared.reply.Reply.TheVariants.{Done};
ghost use Rattle.hek_machine.specs.Written.{AreEnough, key_walk, after_making};
ghost use Rattle.hek_rules.specs.Locks.{add_version as version_added};

use crate::engine::Engine;
use hek_buckets::wait_for_holders;
use hek_rules::{Aim, Cause, Effect, NoMemory, TxnId, VersionId, WriteEntry};
use hek_store::Version;
use hek_word::{BeginWord, EndWord};

impl Engine {
    /// Makes room for a version of a bucket, and for its creator in the waiting lists of those that lock the bucket.
    fn reserve_version(&mut self, t: TxnId, bucket: u64) -> Result<(), NoMemory>
        requires bucket { bucket < length self.old.buckets }
        requires holders { All (λ h. Declared self.old.txns h) (holders_in self.old.buckets bucket).items }
        ensures reserved { Reserved self.old self.new }
        ensures make { OnOk result (CanMake self.new t bucket) }
    {
        self.store.reserve_version()?;
        self.reserve_joins(t, bucket)
    }

    /// The transaction makes a version, and waits for those that lock its bucket.
    #[tactic(auto, using(crate::proofs::AddRules::add_named, crate::proofs::AddRules::add_room))]
    fn add_version(&mut self, t: TxnId, key: u64, value: u64, bucket: u64)
        requires able { IsAdding self.old t }
        requires room { HasRoom self.old t 1 [] }
        requires bucket { bucket ≡ key % self.old.store.buckets }
        requires make { CanMake self.old t (key % self.old.store.buckets) }
        ensures { (w : _) → CanAddVersion self.old t w → Shows self.new (version_added w t key value) }
    {
        let made = WriteEntry::BeginOf(VersionId::new(self.store.len()));
        self.store.add_version(Version {
            key,
            value,
            begin: BeginWord::by(t),
            end: EndWord::infinity(),
        });
        self.txns.push_write(t, made);
        wait_for_holders(&self.buckets, &mut self.txns, bucket, t);
    }

    /// The walk over the versions of a key; then a version is made, for which there is room. Returns the cause if the
    /// walk is refused.
    fn make_with_room(
        &mut self,
        t: TxnId,
        aim: &Aim,
        key: u64,
        value: u64,
        bucket: u64,
        vs: &[VersionId],
        effects: &mut Vec<Effect>,
    ) -> Result<Option<Cause>, NoMemory>
        requires known { Declared self.old.txns t }
        requires ordered { StandsForSome self.old }
        requires walker { is_open (txn_in self.old.txns.cores t) ≡ true }
        requires versions { AreEnough self.old t key vs.now }
        requires aimed { IsAimed self.old t vs.now aim.now }
        requires bucket { bucket ≡ key % self.old.store.buckets }
        requires make { CanMake self.old t (key % self.old.store.buckets) }
        ensures rule { IfOk result (λ refused. IsRule (λ w. after_making w t key value (key_walk w t (purpose_of aim.now) key)) self.old self.new (reply_or_abort refused Done)) }
        ensures still { OnErr result (StillShows self.old self.new) }
    {
        // The contract of `len` bounds the versions: their number is too small for a counter of waits to overflow.
        let _ = self.store.len();
        match self.walk_over(t, aim, bucket, vs, 1, effects)? {
            None => {
                self.add_version(t, key, value, bucket);
                Ok(None)
            }
            Some(cause) => Ok(Some(cause)),
        }
    }

    /// The walk over the versions of a key; then a version is made, if there is memory for it. Returns the cause if the
    /// walk is refused.
    pub(crate) fn make(
        &mut self,
        t: TxnId,
        aim: &Aim,
        key: u64,
        value: u64,
        vs: &[VersionId],
        effects: &mut Vec<Effect>,
    ) -> Result<Option<Cause>, NoMemory>
        requires known { Declared self.old.txns t }
        requires ordered { StandsForSome self.old }
        requires walker { is_open (txn_in self.old.txns.cores t) ≡ true }
        requires versions { AreEnough self.old t key vs.now }
        requires aimed { IsAimed self.old t vs.now aim.now }
        ensures rule { IfOk result (λ refused. IsRule (λ w. after_making w t key value (key_walk w t (purpose_of aim.now) key)) self.old self.new (reply_or_abort refused Done)) }
        ensures still { OnErr result (StillShows self.old self.new) }
    {
        let bucket = self.bucket_of(key);
        self.reserve_version(t, bucket)?;
        self.make_with_room(t, aim, key, value, bucket, vs, effects)
    }
}
