//! What the transaction of a step sees of versions.
ghost use Rattle.hek_txn.specs.TxnTable.{Declared};

use hek_machine::Machine;
use hek_report::{Hole, Text};
use hek_rules::{Event, NoMemory, Reply, Schedule, Sight, State, TxnId, VersionId};
use hek_why::{Reason, Step, looks, read_time, sights};
use std::alloc::Global;

/// Appends a line with the time at which the transaction of a step looks, as `at 3`, and a line for each version that it looks
/// at: `0 seen`, `1 passed over`, `2 seen if a`, `3 passed over if a`. A step that walks looks at the versions of its walk
/// as they were before it, `begin` at all versions. Nothing for a step that looks at none.
pub(crate) fn put_sees(
    alloc: Global,
    schedule: &Schedule,
    step: &Step<'_>,
    lines: &mut Vec<u8>,
) -> Result<(), NoMemory> {
    let Some(t) = step.event.txn() else {
        return Ok(());
    };
    if let (Event::Begin(_), Reply::Began(_)) = (step.event, step.reply) {
        put_looks(alloc, schedule, step.after, t, lines)
    } else if may_walk(step.before, t) && !matches!(step.reply, Reply::Refused(_)) {
        put_walk(alloc, schedule, step.before, t, &step.event, lines)
    } else {
        Ok(())
    }
}

/// Whether a transaction is one whose reads and writes walk over versions.
fn may_walk(machine: &Machine, t: TxnId) -> bool {
    machine.is_declared(t)
        && machine.state(t) == State::Active
        && !machine.no_more_waits(t)
        && !machine.abort_now(t)
}

fn all_versions(alloc: Global, machine: &Machine) -> Result<Vec<VersionId>, NoMemory> {
    let mut versions = Vec::new(alloc);
    for index in 0..machine.versions() {
        versions.push(VersionId::new(index as u64))?;
    }
    Ok(versions)
}

fn put_looks(
    alloc: Global,
    schedule: &Schedule,
    machine: &Machine,
    t: TxnId,
    lines: &mut Vec<u8>,
) -> Result<(), NoMemory> {
    if !machine.is_declared(t) {
        return Ok(());
    }
    let versions = all_versions(alloc, machine)?;
    let seen = looks(alloc, machine, t, versions.as_slice())?;
    put_seen(schedule, machine, t, seen.as_slice(), lines)
}

fn put_walk(
    alloc: Global,
    schedule: &Schedule,
    machine: &Machine,
    t: TxnId,
    event: &Event,
    lines: &mut Vec<u8>,
) -> Result<(), NoMemory> {
    if !machine.is_declared(t) {
        return Ok(());
    }
    let seen = sights(alloc, machine, t, event)?;
    put_seen(schedule, machine, t, seen.as_slice(), lines)
}

fn put_seen(
    schedule: &Schedule,
    machine: &Machine,
    t: TxnId,
    seen: &[Reason],
    lines: &mut Vec<u8>,
) -> Result<(), NoMemory>
    requires { Declared machine.now.txns t }
{
    if seen.is_empty() {
        return Ok(());
    }
    let mut text = Text::after(lines);
    let time = read_time(machine, t).number();
    text.form("at @\n", &[Hole::Number(time)]);
    for reason in seen {
        if let Reason::Looked { version, sight } = reason {
            put_sight(schedule, *version, *sight, &mut text);
        }
    }
    text.done()
}

fn put_sight(schedule: &Schedule, version: VersionId, sight: Sight, text: &mut Text<'_>) {
    let index = version.index();
    match sight {
        Sight::Seen => text.form("@ seen\n", &[index]),
        Sight::SeenIf(u) => {
            let holes = [Hole::Number(index), Hole::txn(schedule, u)];
            text.form("@ seen if @\n", &holes);
        }
        Sight::Hidden | Sight::HiddenActive(_) => text.form("@ passed over\n", &[index]),
        Sight::HiddenIf(u) => {
            let holes = [Hole::Number(index), Hole::txn(schedule, u)];
            text.form("@ passed over if @\n", &holes);
        }
    }
}
