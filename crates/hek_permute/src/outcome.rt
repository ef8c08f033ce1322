//! The outcome of an order: how each transaction ended, the rows at the end, and whether the committed transactions can
//! follow one another.
ghost use Rattle.std.specs.Prelude.{◌≡◌, ◌↔◌, IfOk, IsTrue};
ghost use Rattle.hek_worker.specs.History.{Replays};
ghost use Rattle.hek_permute.specs.Outcomes.{IsOutcomeOf, end_in, ends_upto, has_wait};
ghost use Rattle.hek_serial.specs.SerialOrders.{IsSerializability};
ghost use Rattle.hek_worker.specs.History.{recorded_by};

use crate::play::Play;
use hek_rules::{Cause, NoMemory, Pairs, Reply, Schedule, TxnId};
use hek_serial::{Serializability, serializability_of};
use hek_worker::{Entry, transcript_of};
use std::alloc::Global;
use std::marker::Model;

/// How a transaction ended.
#[derive(Clone, Copy, Debug, PartialEq, Eq)]
pub enum Ending {
    Committed,
    Aborted(Cause),
    /// The transaction neither committed nor aborted.
    Unended,
}

/// How each transaction ended, by ID; the committed rows at the end, by key; whether the committed transactions can
/// follow one another, all taken as serializable; and whether a transaction had to wait.
#[derive(Drop, Debug)]
pub struct Outcome {
    ends: Vec<Ending>,
    rows: Pairs,
    verdict: Serializability,
    waited: bool,
}

impl Model for Outcome {
    ghost use Rattle.hek_permute.specs.Found.{Found};

    ghost Value = { Found };

    ghost view = { λ o. record { ends = o.ends.items; rows = o.rows; verdict = o.verdict; waited = o.waited } };
}

impl Outcome {
    /// How each transaction ended, by ID.
    pub fn ends(&self) -> &[Ending]
        ensures { result.now ≡ self.now.ends }
    {
        self.ends.as_slice()
    }

    /// The committed rows at the end, by key.
    pub fn rows(&self) -> &Pairs
        ensures { result.now ≡ self.now.rows }
    {
        &self.rows
    }

    /// Whether the committed transactions can follow one another, all taken as serializable: by end time, in another
    /// order, or in none.
    pub fn verdict(&self) -> Serializability
        ensures { result ≡ self.now.verdict }
    {
        self.verdict
    }

    /// Whether a transaction had to wait.
    pub fn waited(&self) -> bool
        ensures { result ≡ self.now.waited }
    {
        self.waited
    }

    /// Whether the endings, the rows and the verdict are equal. Waits do not count.
    pub fn same(&self, other: &Outcome) -> bool
        ensures { IsTrue result ↔ IsSame self.now other.now }
    {
        let verdict = self.verdict == other.verdict;
        let ends = self.ends == other.ends;
        let rows = self.rows.same(&other.rows);
        verdict & ends & rows
    }
}

ghost use Rattle.hek_permute.specs.Found.{IsSame};

/// The outcome of a play.
pub fn outcome_of(alloc: Global, schedule: &Schedule, play: Play) -> Result<Outcome, NoMemory>
    requires { Replays schedule.now play.machine play.history.items }
    ensures { IfOk result (IsOutcomeOf schedule.now play.history.items) }
{
    let Play { machine, history } = play;
    let ends = ends_of(alloc, schedule.txn_count(), history.as_slice())?;
    let waited = some_waited(history.as_slice());
    let rows = machine.rows()?;
    let verdict = verdict_of(alloc, schedule, history)?;
    Ok(Outcome {
        ends,
        rows,
        verdict,
        waited,
    })
}

fn ends_of(alloc: Global, count: usize, history: &[Entry]) -> Result<Vec<Ending>, NoMemory>
    ensures { IfOk result (λ ends. ends.items ≡ ends_upto count history.now) }
{
    let mut ends = Vec::with_capacity(alloc, count)?;
    for place in 0..count {
        ends.push(end_of(TxnId::new(place as u64 + 1), history))?;
    }
    Ok(ends)
}

/// How a transaction ended.
pub fn end_of(txn: TxnId, history: &[Entry]) -> Ending
    ensures { result ≡ end_in txn history.now }
{
    let mut rest = history;
    while let Some((entry, later)) = rest.split_first() {
        if entry.worker == txn {
            match &entry.reply {
                Reply::Committed => return Ending::Committed,
                Reply::Aborted(cause) => return Ending::Aborted(*cause),
                Reply::Failed => return Ending::Aborted(Cause::Asked),
                _ => {}
            }
        }
        rest = later;
    }
    Ending::Unended
}

/// Whether a transaction had to wait.
pub fn some_waited(history: &[Entry]) -> bool
    ensures { result ≡ has_wait history.now }
{
    let mut rest = history;
    while let Some((entry, later)) = rest.split_first() {
        if is_wait(&entry.reply) {
            return true;
        }
        rest = later;
    }
    false
}

ghost use Rattle.hek_permute.specs.Outcomes.{is_wait};

/// Whether a reply says that the transaction must wait.
pub(crate) fn is_wait(reply: &Reply) -> bool
    ensures { result ≡ is_wait reply.now }
{
    matches!(reply, Reply::Waiting(_) | Reply::WaitingCommits(_))
}

/// Whether the committed transactions of a history can follow one another, all taken as serializable.
fn verdict_of(
    alloc: Global,
    schedule: &Schedule,
    history: Vec<Entry>,
) -> Result<Serializability, NoMemory>
    ensures { IfOk result (λ verdict. IsSerializability (recorded_by schedule.now history.items) verdict) }
{
    let told = transcript_of(alloc, schedule, history)?;
    serializability_of(alloc, &told)
}
