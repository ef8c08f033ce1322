//! Which transaction waits for which, and where a wait ends.
ghost use Rattle.hek_txn.specs.TxnTable.{Declared};

use hek_machine::Machine;
use hek_report::{Hole, Text};
use hek_rules::{Event, NoMemory, Reply, State, TxnId};
use hek_why::{Reason, Step, commit_reasons, wait_reasons};
use std::alloc::Global;

/// The waits at the last look, and the transactions that were answered `waiting` and still wait.
#[derive(Drop)]
pub(crate) struct Waits {
    lines: Vec<u8>,
    asked: Vec<Ask>,
}

/// A transaction that must wait before it precommits, or before it commits.
#[derive(Clone, Copy)]
struct Ask {
    txn: TxnId,
    is_commit: bool,
}

impl Waits {
    pub(crate) fn new(alloc: Global) -> Waits {
        Waits {
            lines: Vec::new(alloc),
            asked: Vec::new(alloc),
        }
    }

    /// Sets the lines of all waits, if they are not those of the last look: `2 1 version 0` where transaction 2 waits
    /// for transaction 1, which read-locks version 0, `2 1 bucket 3` for a bucket's lock, `2 1 commit` for a commit. This
    /// look becomes the last one.
    pub(crate) fn changes(
        &mut self,
        alloc: Global,
        machine: &Machine,
        told: &mut Option<Vec<u8>>,
    ) -> Result<(), NoMemory> {
        let lines = wait_lines(alloc, machine)?;
        if lines != self.lines {
            *told = Some(Vec::from_slice(alloc, lines.as_slice())?);
            self.lines = lines;
        }
        Ok(())
    }

    /// Notes the reply of a step. Appends a line for each transaction whose wait has ended with the step: its number.
    pub(crate) fn note(
        &mut self,
        alloc: Global,
        step: &Step<'_>,
        ended: &mut Vec<u8>,
    ) -> Result<(), NoMemory> {
        self.end_waits(alloc, step.after, ended)?;
        self.add_ask(&step.event, step.reply)
    }

    /// Drops those that wait no longer, and appends their numbers.
    fn end_waits(
        &mut self,
        alloc: Global,
        machine: &Machine,
        ended: &mut Vec<u8>,
    ) -> Result<(), NoMemory> {
        let mut kept = Vec::new(alloc);
        let mut text = Text::after(ended);
        for ask in &self.asked {
            if still_waits(machine, *ask) {
                kept.push(*ask)?;
            } else {
                text.form("@\n", &[Hole::Number(ask.txn.number())]);
            }
        }
        self.asked = kept;
        text.done()
    }

    fn add_ask(&mut self, event: &Event, reply: &Reply) -> Result<(), NoMemory> {
        if let Some(ask) = ask_of(event, reply) {
            if !has(self.asked.as_slice(), ask.txn) {
                self.asked.push(ask)?;
            }
        }
        Ok(())
    }

    /// Appends a line for each transaction that has asked and waits: `2 waits`, or `2 commits`.
    pub(crate) fn put_asked(&self, lines: &mut Vec<u8>) -> Result<(), NoMemory> {
        let mut text = Text::after(lines);
        for ask in &self.asked {
            let kind = if ask.is_commit { "commits" } else { "waits" };
            text.form("@ @\n", &[Hole::Number(ask.txn.number()), Hole::Word(kind)]);
        }
        text.done()
    }
}

/// The wait that a reply asks for.
fn ask_of(event: &Event, reply: &Reply) -> Option<Ask> {
    let txn = event.txn()?;
    match reply {
        Reply::Waiting(_) => Some(Ask {
            txn,
            is_commit: false,
        }),
        Reply::WaitingCommits(_) => Some(Ask {
            txn,
            is_commit: true,
        }),
        _ => None,
    }
}

fn has(asked: &[Ask], txn: TxnId) -> bool {
    for ask in asked {
        if ask.txn == txn {
            return true;
        }
    }
    false
}

/// Whether a transaction that asked still has something to wait for.
fn still_waits(machine: &Machine, ask: Ask) -> bool {
    if !machine.is_declared(ask.txn) {
        return false;
    }
    match machine.state(ask.txn) {
        State::Active => !ask.is_commit && machine.waits(ask.txn) > 0,
        State::Preparing => ask.is_commit && machine.commit_deps(ask.txn) > 0,
        _ => false,
    }
}

/// A line for each wait of each transaction, by ID.
fn wait_lines(alloc: Global, machine: &Machine) -> Result<Vec<u8>, NoMemory> {
    let mut lines = Vec::new(alloc);
    let mut text = Text::after(&mut lines);
    for place in 0..machine.txns() {
        let t = TxnId::new(place + 1);
        if machine.is_declared(t) {
            put_waits_of(alloc, machine, t, &mut text)?;
        }
    }
    text.done()?;
    Ok(lines)
}

fn put_waits_of(
    alloc: Global,
    machine: &Machine,
    t: TxnId,
    text: &mut Text<'_>,
) -> Result<(), NoMemory>
    requires { Declared machine.now.txns t }
{
    if machine.waits(t) > 0 {
        let reasons = wait_reasons(alloc, machine, t)?;
        put_reasons(t, reasons.as_slice(), text);
    }
    if machine.commit_deps(t) > 0 {
        let reasons = commit_reasons(alloc, machine, t)?;
        put_reasons(t, reasons.as_slice(), text);
    }
    Ok(())
}

/// A line for each of whom a transaction waits for: without the bucket of a lock that its holder has given back.
fn put_reasons(t: TxnId, reasons: &[Reason], text: &mut Text<'_>) {
    let me = Hole::Number(t.number());
    for reason in reasons {
        match reason {
            Reason::ReadLocked { version, readers } => {
                for reader in readers.as_slice() {
                    let holes = [
                        me,
                        Hole::Number(reader.number()),
                        Hole::Number(version.index()),
                    ];
                    text.form("@ @ version @\n", &holes);
                }
            }
            Reason::Listed {
                holder,
                bucket: Some(bucket),
            } => {
                let holes = [me, Hole::Number(holder.number()), Hole::Number(*bucket)];
                text.form("@ @ bucket @\n", &holes);
            }
            Reason::Listed {
                holder,
                bucket: None,
            } => text.form("@ @ bucket\n", &[me, Hole::Number(holder.number())]),
            Reason::Depends(u) => text.form("@ @ commit\n", &[me, Hole::Number(u.number())]),
            _ => {}
        }
    }
}
