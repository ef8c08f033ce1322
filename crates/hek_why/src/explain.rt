//! The reasons of a reply.
ghost use Rattle.std.specs.Prelude.{◌≡◌, [], ◌∷◌, ◌++◌, IfOk, IfSome, OnOk, map};
ghost use Rattle.hek_rules.specs.Events.{txn_of};
ghost use Rattle.hek_rules.specs.Listing.{firsts_of};
ghost use Rattle.hek_rules.specs.World.{txn_in};
ghost use Rattle.hek_txn.specs.TxnTable.{Declared};
ghost use Rattle.hek_machine.specs.Judgements.{IsShown};
ghost use Rattle.hek_rules.specs.Aims.{purpose_of, target_of};
ghost use Rattle.hek_why.specs.Causes.{TellCause};
ghost use Rattle.hek_why.specs.Explained.{walked, purpose_in, target_in, stopped_by, claimed_in, stops_in, abort_in, AreReasons};

use crate::dooms::Dooms;
use crate::facts::state_of;
use crate::met::met_at;
use crate::reason::{Met, Reason};
use crate::refused::refusal_reason;
use crate::stops::{claim_at, first_stop};
use crate::waits::{commit_reasons, wait_reasons};
use crate::walked::{last_seen, looks, versions_in, versions_of};
use hek_machine::Machine;
use hek_rules::{Aim, Cause, Event, NoMemory, Reply, State, TxnId, VersionId};
use std::alloc::Global;

/// An event with its reply, between two machines.
#[derive(Drop)]
pub struct Step<'a> {
    pub before: &'a Machine,
    pub event: Event,
    pub reply: &'a Reply,
    pub after: &'a Machine,
}

/// Why a step's event has its reply. `dooms` holds the aborts before the step. Replies that depend on no other
/// transaction or version, such as `began`, `ready` or `committed`, have no reasons. The reasons of an abort give the
/// cause that the reply names.
pub fn reasons(alloc: Global, step: &Step<'_>, dooms: &Dooms) -> Result<Vec<Reason>, NoMemory>
    ensures reasons { IfOk result (λ list. IfSome (txn_of step.now.event) (λ t. AreReasons step.now.before.now dooms.now t step.now.event step.now.reply.now list.items)) }
    ensures cause { IfOk result (λ list. IfSome (txn_of step.now.event) (λ t. TellCause step.now.before.now t step.now.event step.now.reply.now list.items)) }
{
    match step.event.txn() {
        Some(t) => reasons_of(alloc, step, t, dooms),
        None => cycle_reasons(alloc, step.before, step.reply),
    }
}

fn reasons_of(
    alloc: Global,
    step: &Step<'_>,
    t: TxnId,
    dooms: &Dooms,
) -> Result<Vec<Reason>, NoMemory>
    ensures { IfOk result (λ list. AreReasons step.now.before.now dooms.now t step.now.event step.now.reply.now list.items) }
{
    let machine = step.before;
    if let Reply::Refused(refusal) = step.reply {
        let reason = refusal_reason(machine, t, step.event.kind(), *refusal)?;
        return alone(alloc, reason);
    }
    if !machine.is_declared(t) {
        return Ok(Vec::new(alloc));
    }
    match step.reply {
        Reply::Waiting(_) => wait_reasons(alloc, machine, t),
        Reply::WaitingCommits(_) => commit_reasons(alloc, machine, t),
        Reply::Aborted(cause) => abort_reasons(alloc, machine, t, &step.event, *cause, dooms),
        Reply::Found(_) | Reply::Absent | Reply::Rows(_) | Reply::Exists | Reply::Done => {
            let versions = walked(alloc, machine, &step.event)?;
            looks(alloc, machine, t, versions.as_slice())
        }
        _ => word_reasons(alloc, step),
    }
}

/// A list of one reason.
fn alone(alloc: Global, reason: Reason) -> Result<Vec<Reason>, NoMemory>
    ensures { IfOk result (λ list. list.items ≡ reason ∷ []) }
{
    let mut list = Vec::new(alloc);
    list.push(reason)?;
    Ok(list)
}

/// The versions that the walk of an event goes over.
pub(crate) fn walked(
    alloc: Global,
    machine: &Machine,
    event: &Event,
) -> Result<Vec<VersionId>, NoMemory>
    ensures { IfOk result (λ vs. IsShown machine.now (λ w. walked w event.now) vs.items) }
{
    match *event {
        Event::Read(_, key)
        | Event::Insert(_, key, _)
        | Event::Update(_, key, _)
        | Event::Delete(_, key) => versions_of(alloc, machine, key),
        Event::Scan(_, bucket) => versions_in(alloc, machine, bucket),
        _ => Ok(Vec::new(alloc)),
    }
}

/// What the walk of an event is for.
fn aim_of(machine: &Machine, t: TxnId, event: &Event, vs: &[VersionId]) -> Aim
    requires { Declared machine.now.txns t }
    ensures purpose { purpose_of result ≡ purpose_in event.now }
    ensures target { IsShown machine.now (λ w. target_in w t event.now vs.now) (target_of result) }
{
    match *event {
        Event::Update(..) | Event::Delete(..) => Aim::ToWrite(last_seen(machine, t, vs)),
        _ => Aim::ToRead,
    }
}

/// Why a transaction aborts, or aborted before.
fn abort_reasons(
    alloc: Global,
    machine: &Machine,
    t: TxnId,
    event: &Event,
    cause: Cause,
    dooms: &Dooms,
) -> Result<Vec<Reason>, NoMemory>
    requires { Declared machine.now.txns t }
    ensures { IfOk result (λ list. IsShown machine.now (λ w. abort_in w dooms.now t event.now cause (txn_in w.txns t).state) list.items) }
{
    if let State::Aborted(before) = state_of(machine, t) {
        return alone(alloc, Reason::AbortedBefore(before));
    }
    if cause == Cause::Cascade {
        return doom_reasons(alloc, t, dooms);
    }
    let versions = walked(alloc, machine, event)?;
    stop_reasons(alloc, machine, t, event, versions.as_slice())
}

fn doom_reasons(alloc: Global, t: TxnId, dooms: &Dooms) -> Result<Vec<Reason>, NoMemory>
    ensures { IfOk result (λ list. list.items ≡ map (λ u. Reason.DoomedBy u) (firsts_of dooms.now t)) }
{
    let txns = dooms.of(alloc, t)?;
    let list = doomed_by(alloc, txns.as_slice())?;
    Ok(list)
}

fn doomed_by(alloc: Global, txns: &[TxnId]) -> Result<Vec<Reason>, NoMemory>
    ensures { IfOk result (λ list. list.items ≡ map (λ u. Reason.DoomedBy u) txns.now) }
{
    let mut list = Vec::new(alloc);
    for u in txns {
        list.push(Reason::DoomedBy(*u))?;
    }
    Ok(list)
}

/// The version at which the walk of an event is refused, or those that claim the key of its insert.
fn stop_reasons(
    alloc: Global,
    machine: &Machine,
    t: TxnId,
    event: &Event,
    vs: &[VersionId],
) -> Result<Vec<Reason>, NoMemory>
    requires { Declared machine.now.txns t }
    ensures { IfOk result (λ list. IsShown machine.now (λ w. stops_in w t event.now vs.now) list.items) }
{
    let aim = aim_of(machine, t, event, vs);
    match first_stop(machine, t, &aim, vs)? {
        Some(stop) => {
            let met = met_at(machine, stop.version, stop.sight, stop.cause);
            let mut list = Vec::new(alloc);
            add_stop(stop.version, stop.cause, met, &mut list)?;
            Ok(list)
        }
        None => claim_reasons(alloc, machine, t, vs),
    }
}

/// The versions that claim the key of an insert, in the order of the walk.
fn claim_reasons(
    alloc: Global,
    machine: &Machine,
    t: TxnId,
    vs: &[VersionId],
) -> Result<Vec<Reason>, NoMemory>
    requires { Declared machine.now.txns t }
    ensures { IfOk result (λ list. IsShown machine.now (λ w. claimed_in w t vs.now) list.items) }
{
    let mut list = Vec::new(alloc);
    for v in vs {
        add_stop(*v, Cause::Conflict, claim_at(machine, t, *v), &mut list)?;
    }
    Ok(list)
}

/// Appends the reason that a transaction was stopped at a version, if it met something there.
fn add_stop(
    version: VersionId,
    cause: Cause,
    met: Option<Met>,
    list: &mut Vec<Reason>,
) -> Result<(), NoMemory>
    ensures { OnOk result (list.new.items ≡ list.old.items ++ stopped_by version cause met) }
{
    if let Some(met) = met {
        list.push(Reason::Stopped {
            version,
            cause,
            met,
        })?;
    }
    Ok(())
}

/// Why each member of a cycle waits for the next. A reply without a cycle has no such reasons.
fn cycle_reasons(alloc: Global, machine: &Machine, reply: &Reply) -> Result<Vec<Reason>, NoMemory> {
    let mut list = Vec::new(alloc);
    let Reply::Victim(first, members) = reply else {
        return Ok(list);
    };
    let members = members.items();
    for place in 0..members.len() {
        let waiter = members[place];
        let next = members.get(place + 1).copied().unwrap_or(*first);
        list.push(Reason::WaitsFor {
            waiter,
            next,
            version: read_under(machine, waiter, next)?,
        })?;
    }
    Ok(list)
}

/// The first version that a transaction writes, in the order of another's read set.
fn read_under(
    machine: &Machine,
    writer: TxnId,
    reader: TxnId,
) -> Result<Option<VersionId>, NoMemory> {
    if !machine.is_declared(reader) {
        return Ok(None);
    }
    for v in machine.read_list(reader)?.as_slice() {
        if let Some(word) = machine.end_word(*v) {
            if word.writer() == Some(writer) {
                return Ok(Some(*v));
            }
        }
    }
    Ok(None)
}

/// The word that an event changed, or left as it was.
fn word_reasons(alloc: Global, step: &Step<'_>) -> Result<Vec<Reason>, NoMemory> {
    match step.reply {
        Reply::ReleasedRead(v, _) | Reply::StampedEnd(v) | Reply::Left(v) => {
            end_reason(alloc, step, *v)
        }
        Reply::StampedBegin(v) => begin_reason(alloc, step, *v),
        _ => Ok(Vec::new(alloc)),
    }
}

fn end_reason(alloc: Global, step: &Step<'_>, version: VersionId) -> Result<Vec<Reason>, NoMemory> {
    match (step.before.end_word(version), step.after.end_word(version)) {
        (Some(before), Some(after)) => alone(
            alloc,
            Reason::End {
                version,
                before,
                after,
            },
        ),
        _ => Ok(Vec::new(alloc)),
    }
}

fn begin_reason(
    alloc: Global,
    step: &Step<'_>,
    version: VersionId,
) -> Result<Vec<Reason>, NoMemory> {
    match (
        step.before.begin_word(version),
        step.after.begin_word(version),
    ) {
        (Some(before), Some(after)) => alone(
            alloc,
            Reason::Begin {
                version,
                before,
                after,
            },
        ),
        _ => Ok(Vec::new(alloc)),
    }
}
