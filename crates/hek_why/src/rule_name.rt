//! The names of the definitions that decide replies.
ghost use Rattle.std.specs.Prelude.{◌≡◌};
ghost use Rattle.hek_why.specs.RuleNames.{stop_rule, refusal_rule, edge_rule, end_rule, name_of};

use crate::reason::{Met, Reason};
use hek_rules::{Cause, Refusal, Reply, VersionId};

impl Reason {
    /// The definition that decided what this reason of a reply says: its module in the folder `specs` of hek_rules, and
    /// its name there, as `Table.commit_rule`.
    pub fn rule_name(&self, reply: &Reply) -> &'static str
        ensures { result.now ≡ name_of reply.now self.now }
    {
        match self {
            Reason::ReadLocked { .. } | Reason::Listed { .. } => "Table.precommit_rule",
            Reason::Depends(_) => "Table.commit_rule",
            Reason::Looked { .. } => "Visibility.sight",
            Reason::Stopped { cause, met, .. } => stop_rule(*cause, *met),
            Reason::DoomedBy(_) => "Table.doom",
            Reason::AbortedBefore(_) => "Checks.repeats_cause",
            Reason::WaitsFor { version, .. } => edge_rule(*version),
            Reason::Refused { refusal, .. } => refusal_rule(*refusal),
            Reason::Holds { .. } => "Table.holds_nothing",
            Reason::Begin { .. } => "Table.stamp_rule",
            Reason::End { .. } => end_rule(reply),
        }
    }
}

/// What stops a walk, or an insert, that met this.
fn stop_rule(cause: Cause, met: Met) -> &'static str
    ensures { result.now ≡ stop_rule cause met }
{
    match (cause, met) {
        (Cause::Conflict, Met::Creator(_)) => "Table.is_claimed",
        (Cause::Conflict, Met::MadeAt(_)) => "Table.is_made_later",
        (Cause::Conflict, _) => "Locks.write_refusal",
        (_, Met::Creator(_)) => "Walk.wait_judged",
        _ => "Locks.read_refusal",
    }
}

/// What refuses an event.
fn refusal_rule(refusal: Refusal) -> &'static str
    ensures { result.now ≡ refusal_rule refusal }
{
    match refusal {
        Refusal::UnknownTxn => "World.declared",
        Refusal::NotBegun => "World.is_not_begun",
        Refusal::BegunTwice => "Checks.begins",
        Refusal::Ended => "World.is_terminated",
        Refusal::WrongPhase => "Checks.in_phase",
        Refusal::ClockFull => "Checks.draws",
    }
}

/// What makes a member of a cycle wait for the next: a version, or a WaitingTxnList.
fn edge_rule(version: Option<VersionId>) -> &'static str
    ensures { result.now ≡ edge_rule version }
{
    match version {
        Some(_) => "WaitGraph.waits_by_version",
        None => "WaitGraph.is_edge",
    }
}

/// What changes an End word, or leaves it as it is.
fn end_rule(reply: &Reply) -> &'static str
    ensures { result.now ≡ end_rule reply.now }
{
    match reply {
        Reply::ReleasedRead(..) => "Table.release_read",
        Reply::Left(_) => "Table.stamp_aborted",
        _ => "Table.stamp_rule",
    }
}
