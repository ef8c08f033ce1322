//! Where a walk is refused, or an insert meets a claim.
ghost use Rattle.std.specs.Prelude.{◌≡◌, IfOk};
ghost use Rattle.hek_rules.specs.Walk.{version_judged, lock_judged, wait_judged};
ghost use Rattle.hek_rules.specs.World.{txn_in};
ghost use Rattle.hek_rules.specs.Table.{is_claim};
ghost use Rattle.hek_txn.specs.TxnTable.{Declared};
ghost use Rattle.hek_machine.specs.Judgements.{IsShown};
ghost use Rattle.hek_why.specs.Stops.{refused_by, stop_by, stop_at, first_stop, claim_at};
ghost use Rattle.hek_rules.specs.Aims.{purpose_of, target_of};

use crate::facts::{end_of, has_finished, is_listed, read_time, state_of};
use crate::met::{made_by, no_read_lock, no_write_lock};
use crate::reason::Met;
use crate::see::see;
use hek_machine::Machine;
use hek_rules::{Aim, BeginRecord, Cause, Level, NoMemory, Sight, State, TxnId, VersionId};
use hek_word::{BeginWord, EndWord};

/// The version at which a walk is refused, what the transaction sees of it, and the cause.
#[derive(Clone, Copy, Debug, PartialEq, Eq)]
pub(crate) struct Stop {
    pub(crate) version: VersionId,
    pub(crate) sight: Sight,
    pub(crate) cause: Cause,
}

/// What refuses the lock that a walk takes of a version that it sees.
fn lock_refused(
    machine: &Machine,
    t: TxnId,
    aim: &Aim,
    v: VersionId,
) -> Result<Option<Cause>, NoMemory>
    requires { Declared machine.now.txns t }
    ensures { IfOk result (IsShown machine.now (λ w. refused_by (lock_judged w t (purpose_of aim.now) (target_of aim.now) v))) }
{
    match *aim {
        Aim::ToRead => match machine.level(t) {
            Level::Snapshot => Ok(None),
            Level::Serializable | Level::Repeatable => no_read_lock(machine, t, v),
        },
        Aim::ToWrite(Some(target)) if v == target => Ok(no_write_lock(machine, v)),
        Aim::ToWrite(_) => Ok(None),
    }
}

/// The cause that refuses to make u wait. The Active u made a version that t meets and does not see.
fn wait_refused(machine: &Machine, t: TxnId, u: TxnId) -> Result<Option<Cause>, NoMemory>
    requires { Declared machine.now.txns t }
    ensures { IfOk result (IsShown machine.now (λ w. refused_by (wait_judged w t u (txn_in w.txns t).level))) }
{
    match machine.level(t) {
        Level::Repeatable | Level::Snapshot => Ok(None),
        Level::Serializable => {
            if is_listed(machine, t, u)? || !has_finished(machine, u) {
                Ok(None)
            } else {
                Ok(Some(Cause::NoMoreWaits))
            }
        }
    }
}

/// What refuses a walk at a version of which the transaction sees this, if something does.
fn refused_at(
    machine: &Machine,
    t: TxnId,
    aim: &Aim,
    v: VersionId,
    sight: &Sight,
) -> Result<Option<Cause>, NoMemory>
    requires { Declared machine.now.txns t }
    ensures { IfOk result (IsShown machine.now (λ w. refused_by (version_judged w t (purpose_of aim.now) (target_of aim.now) v sight.now))) }
{
    match *sight {
        Sight::Seen | Sight::SeenIf(_) => lock_refused(machine, t, aim, v),
        Sight::Hidden | Sight::HiddenIf(_) => Ok(None),
        Sight::HiddenActive(u) => wait_refused(machine, t, u),
    }
}

/// The stop at a version, if the walk is refused there.
fn stop_at(machine: &Machine, t: TxnId, aim: &Aim, v: VersionId) -> Result<Option<Stop>, NoMemory>
    requires { Declared machine.now.txns t }
    ensures { IfOk result (IsShown machine.now (λ w. stop_at w t (purpose_of aim.now) (target_of aim.now) v)) }
{
    let sight = see(machine, t, v);
    let refused = refused_at(machine, t, aim, v, &sight)?;
    Ok(stop_by(v, sight, refused))
}

fn stop_by(version: VersionId, sight: Sight, refused: Option<Cause>) -> Option<Stop>
    ensures { result ≡ stop_by version sight refused }
{
    match refused {
        None => None,
        Some(cause) => Some(Stop {
            version,
            sight,
            cause,
        }),
    }
}

/// The first of these versions at which a walk is refused.
pub(crate) fn first_stop(
    machine: &Machine,
    t: TxnId,
    aim: &Aim,
    vs: &[VersionId],
) -> Result<Option<Stop>, NoMemory>
    requires { Declared machine.now.txns t }
    ensures { IfOk result (IsShown machine.now (λ w. first_stop w t (purpose_of aim.now) (target_of aim.now) vs.now)) }
{
    for v in vs {
        let stop = stop_at(machine, t, aim, *v)?;
        if stop.is_some() {
            return Ok(stop);
        }
    }
    Ok(None)
}

/// Whether a version with this Begin word claims its key: another Active transaction made it, or t is at the snapshot
/// level and it was made after t's read time.
fn is_claim(machine: &Machine, t: TxnId, begin: BeginWord) -> bool
    requires { Declared machine.now.txns t }
    ensures { IsShown machine.now (λ w. is_claim w t (txn_in w.txns t).level begin) result }
{
    let is_snapshot = machine.level(t) == Level::Snapshot;
    let read_time = read_time(machine, t);
    match begin.content() {
        BeginRecord::At(time) => {
            is_snapshot
                && read_time.number() < time.number()
                && EndWord::stamped(time) != EndWord::infinity()
        }
        BeginRecord::By(u) => {
            let state = state_of(machine, u);
            let is_active = state == State::Active;
            let is_prepared = state == State::Preparing || state == State::Committed;
            (u != t && is_active)
                || (is_snapshot && is_prepared && read_time.number() < end_of(machine, u).number())
        }
    }
}

/// The creator of a version that exists and claims its key against an insert of t.
pub(crate) fn claim_at(machine: &Machine, t: TxnId, v: VersionId) -> Option<Met>
    requires { Declared machine.now.txns t }
    ensures { IsShown machine.now (λ w. claim_at w t v) result }
{
    let begin = machine.begin_word(v)?;
    if is_claim(machine, t, begin) {
        Some(made_by(begin))
    } else {
        None
    }
}
