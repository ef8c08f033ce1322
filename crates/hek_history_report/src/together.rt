//! Whether the committed transactions of a run can follow one another, and if so in which order, and if not, why not.
use crate::before::{Before, befores_of, named};
use hek_anomalies::Anomaly;
use hek_history_log::{Log, LogFault, read_log, write_run};
use hek_ladder::{Binding, Finding, Levels, Promise, Scene, ask, causes_of, order_of};
use hek_levels_search::Shown;
use hek_rules::{
    Level as RunLevel, NoMemory, Reply, Schedule, Transcript, TxnId, Verdict as Checked,
};
use hek_serial::check_at;
use std::alloc::Global;

/// How much the search tries before it gives up.
const EFFORT: usize = 100_000;

/// Whether the committed transactions of a run can follow one another, all taken as serializable, where those that write
/// one key come in the order of their end times.
#[derive(Drop)]
pub enum Together {
    /// In the order of their end times.
    ByEndTime,
    /// Not in the order of their end times, but in this one.
    InAnotherOrder(Vec<TxnId>),
    /// In no order, for this anomaly: who comes before whom, as far as it goes round.
    NotSerial(Anomaly, Vec<Before>),
    /// The search gave up.
    Unknown,
}

/// Whether the committed transactions of a transcript can follow one another.
pub fn together_of(
    alloc: Global,
    schedule: &Schedule,
    transcript: &Transcript,
) -> Result<Together, NoMemory> {
    match check_at(alloc, transcript, RunLevel::Serializable)? {
        Checked::Serial => Ok(Together::ByEndTime),
        Checked::NotSerial(_) => searched(alloc, schedule, transcript),
    }
}

/// What the search over the log of the run finds.
fn searched(
    alloc: Global,
    schedule: &Schedule,
    transcript: &Transcript,
) -> Result<Together, NoMemory> {
    match log_of(alloc, schedule, transcript)? {
        Some(log) => {
            let scene = Scene::new(alloc, log, Levels::All, BY_END_TIME, EFFORT)?;
            judged(alloc, schedule, &scene, committed_in(transcript))
        }
        None => Ok(Together::Unknown),
    }
}

/// Those that write one key come in the order of their end times.
const BY_END_TIME: Binding = Binding {
    versions: true,
    real: false,
    sessions: false,
};

/// What the search over a log finds, given how many commits the run has.
fn judged(
    alloc: Global,
    schedule: &Schedule,
    scene: &Scene,
    committed: usize,
) -> Result<Together, NoMemory> {
    let found = ask(scene, Promise::Serializable)?;
    match &found {
        Finding::Holds(shown) => ordered(alloc, schedule, scene, shown, committed),
        Finding::Fails(_) | Finding::Lost(_, _) => refuted(alloc, schedule, scene, &found),
        Finding::Unknown(_) => Ok(Together::Unknown),
    }
}

/// The order of an explanation, if each commit of the run has a place in it.
fn ordered(
    alloc: Global,
    schedule: &Schedule,
    scene: &Scene,
    shown: &Shown,
    committed: usize,
) -> Result<Together, NoMemory> {
    let mut order = Vec::new(alloc);
    for t in order_of(alloc, shown)?.iter() {
        if let Some(txn) = named(schedule, scene.log.name(*t)) {
            order.push(txn)?;
        }
    }
    if order.len() < committed {
        return Ok(Together::Unknown);
    }
    Ok(Together::InAnotherOrder(order))
}

/// Who comes before whom, by the names of the schedule.
fn refuted(
    alloc: Global,
    schedule: &Schedule,
    scene: &Scene,
    found: &Finding,
) -> Result<Together, NoMemory> {
    let causes = causes_of(scene, Promise::Serializable, found, false)?;
    let Some(cause) = causes.first() else {
        return Ok(Together::Unknown);
    };
    match befores_of(alloc, schedule, &scene.log, cause)? {
        Some(befores) => Ok(Together::NotSerial(cause.anomaly, befores)),
        None => Ok(Together::Unknown),
    }
}

/// How many commits a transcript has: one of a transaction that never began is in no log.
fn committed_in(transcript: &Transcript) -> usize {
    let replies = transcript.replies().iter();
    replies
        .filter(|reply| matches!(reply, Reply::Committed))
        .count()
}

/// The log of a run; None if it can't be read again.
fn log_of(
    alloc: Global,
    schedule: &Schedule,
    transcript: &Transcript,
) -> Result<Option<Log>, NoMemory> {
    let mut lines = Vec::new(alloc);
    write_run(alloc, schedule, transcript, &mut lines)?;
    let mut input = lines.as_slice();
    match read_log(alloc, &mut input) {
        Ok(log) => Ok(Some(log)),
        Err(LogFault::NoMemory) => Err(NoMemory),
        Err(_) => Ok(None),
    }
}
