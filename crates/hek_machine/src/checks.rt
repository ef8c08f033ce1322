//! The checks before a rule of the table.
ghost use Rattle.std.specs.Prelude.{◌≡◌};
ghost use Rattle.hek_rules.specs.World.{txn_in, is_live as live, is_decided as over};
ghost use Rattle.hek_rules.specs.Checks.{is_open as open_txn, begins as begins_txn, draws as draws_time, repeats_cause as repeats, check_of, check_phase as phase_check, in_phase, missed as missed_phase};
ghost use Rattle.hek_txn.specs.TxnTable.{Declared};
ghost use Rattle.hek_machine.specs.Checks.{is_idle as idle};

use crate::engine::Engine;
use hek_rules::{Check, Event, Refusal, State, TxnId};

/// The last clock value: no event draws it.
const CLOCK_END: u64 = (1 << 63) - 2;

fn is_live(state: State) -> bool
    ensures { result ≡ live state }
{
    matches!(state, State::Active | State::Preparing)
}

fn is_decided(state: State) -> bool
    ensures { result ≡ over state }
{
    matches!(state, State::Committed | State::Aborted(_))
}

fn begins(e: &Event) -> bool
    ensures { result ≡ begins_txn e.now }
{
    matches!(e, Event::Begin(_))
}

/// Whether the event draws a time.
fn draws(e: &Event) -> bool
    ensures { result ≡ draws_time e.now }
{
    matches!(e, Event::Begin(_) | Event::Precommit(_))
}

/// Whether the reply to the event, after an abort, repeats the cause.
fn repeats_cause(e: &Event) -> bool
    ensures { result ≡ repeats e.now }
{
    !matches!(
        e,
        Event::Begin(_) | Event::Release(_) | Event::Stamp(_) | Event::End(_) | Event::Detect
    )
}

/// The check of an event out of its phase.
fn missed(state: State, e: &Event) -> Check
    ensures { result ≡ missed_phase state e.now }
{
    if let State::Aborted(cause) = state {
        if repeats_cause(e) {
            return Check::StillAborted(cause);
        }
    }
    Check::Refused(Refusal::WrongPhase)
}

impl Engine {
    fn is_open(&self, t: TxnId) -> bool
        requires { Declared self.now.txns t }
        ensures { result ≡ open_txn (txn_in self.now.txns.cores t) }
    {
        self.txns.state(t) == State::Active && !self.txns.no_more_waits(t)
    }

    /// Whether the transaction holds no lock, has nothing to stamp, and nobody waits for it.
    fn is_idle(&self, t: TxnId) -> bool
        requires { Declared self.now.txns t }
        ensures { result ≡ idle self.now.txns t }
    {
        self.txns.read_set(t).is_empty()
            && self.txns.bucket_set(t).is_empty()
            && self.txns.waiting_list(t).is_empty()
            && self.txns.write_set(t).is_empty()
    }

    fn is_in_phase(&self, t: TxnId, e: &Event) -> bool
        requires { Declared self.now.txns t }
        ensures { result ≡ in_phase (txn_in self.now.txns.cores t) (idle self.now.txns t) e.now }
    {
        let state = self.txns.state(t);
        match e {
            Event::Begin(_) => state == State::NotBegun,
            Event::Read(..)
            | Event::Scan(..)
            | Event::Insert(..)
            | Event::Update(..)
            | Event::Delete(..)
            | Event::Finish(_) => self.is_open(t),
            Event::Precommit(_) => state == State::Active && self.txns.no_more_waits(t),
            Event::Release(_) => state == State::Preparing || is_decided(state),
            Event::Commit(_) => state == State::Preparing,
            Event::Fail(_) => is_live(state),
            Event::Stamp(_) => is_decided(state),
            Event::End(_) => is_decided(state) && self.is_idle(t),
            Event::Detect => false,
        }
    }

    fn check_phase(&self, t: TxnId, e: &Event) -> Check
        requires { Declared self.now.txns t }
        ensures { result ≡ phase_check (txn_in self.now.txns.cores t) (idle self.now.txns t) self.now.clock e.now }
    {
        let state = self.txns.state(t);
        if is_live(state) && self.txns.abort_now(t) {
            Check::Doomed
        } else if !self.is_in_phase(t, e) {
            missed(state, e)
        } else if draws(e) && self.clock.number() == CLOCK_END {
            Check::Refused(Refusal::ClockFull)
        } else {
            Check::Passed
        }
    }

    /// The first check that fits an event of a declared transaction.
    pub(crate) fn check(&self, t: TxnId, e: &Event) -> Check
        requires { Declared self.now.txns t }
        ensures { result ≡ check_of (txn_in self.now.txns.cores t) (idle self.now.txns t) self.now.clock e.now }
    {
        let state = self.txns.state(t);
        if begins(e) && state != State::NotBegun {
            Check::Refused(Refusal::BegunTwice)
        } else if !begins(e) && state == State::NotBegun {
            Check::Refused(Refusal::NotBegun)
        } else if state == State::Terminated {
            Check::Refused(Refusal::Ended)
        } else {
            self.check_phase(t, e)
        }
    }
}
