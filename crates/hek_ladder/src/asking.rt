//! Whether a log satisfies one level or guarantee.
ghost use Rattle.std.specs.Prelude.{IfOk};
ghost use Rattle.hek_ladder.specs.Findings.{IsAsked, IsJudged, IsJudgedUncommitted, IsJudgedAt, IsFinding};

use crate::promise::Promise;
use crate::scene::Scene;
use crate::twins::have_both;
use hek_anomalies::{Anomaly, Cause, Telling, causes_at};
use hek_levels::{Asked, Log, Place, bare, find_lost};
use hek_levels_refutation::{Step, refutes};
use hek_levels_search::{Progress, Shown, Verdict, judge};
use hek_rules::NoMemory;

/// What is found of a level.
#[derive(Drop)]
pub enum Finding {
    Holds(Shown),
    /// There is no explanation, as these steps show.
    Fails(Vec<Step>),
    /// A transaction read what was never there.
    Lost(usize, Place),
    Unknown(Progress),
}

/// The rules that are asked for.
fn rules_asked(scene: &Scene, promise: Promise) -> Result<Asked, NoMemory>
    ensures { IfOk result (λ asked. IsAsked scene.now promise asked) }
{
    match promise {
        Promise::Own => scene.own_rules(),
        _ => Ok(Asked::All(promise.rules())),
    }
}

/// Asks whether a level or guarantee holds. What is found is judged, and only then answered: it holds by an order that explains the log, or
/// it fails, and then no order does. Nothing says that something is found.
pub fn ask(scene: &Scene, promise: Promise) -> Result<Finding, NoMemory>
    ensures { IfOk result (λ finding. IsFinding scene.now promise finding) }
{
    let asked = rules_asked(scene, promise)?;
    found_of(scene, promise, &asked)
}

/// What is found of a promise by its rules.
fn found_of(scene: &Scene, promise: Promise, asked: &Asked) -> Result<Finding, NoMemory>
    ensures { IfOk result (λ finding. IsJudgedAt promise asked.now scene.now.seen finding) }
{
    if promise == Promise::ReadUncommitted {
        return found_uncommitted(scene, asked);
    }
    found(scene, asked, &scene.seen)
}

/// What is found of read uncommitted.
fn found_uncommitted(scene: &Scene, asked: &Asked) -> Result<Finding, NoMemory>
    ensures { IfOk result (λ finding. IsJudgedUncommitted asked.now scene.now.seen finding) }
{
    if let Some((t, place)) = find_lost(scene.alloc, &scene.seen)? {
        return Ok(Finding::Lost(t, place));
    }
    let turns = bare(scene.alloc, &scene.seen)?;
    found(scene, asked, &turns)
}

/// What is found by rules.
fn found(scene: &Scene, asked: &Asked, log: &Log) -> Result<Finding, NoMemory>
    ensures { IfOk result (λ finding. IsJudged asked.now log.now finding) }
{
    match judge(
        scene.alloc,
        asked,
        log,
        scene.guesses.as_slice(),
        scene.effort,
    )? {
        Verdict::Holds(shown) => {
            let twins = scene.log.twins();
            if have_both(scene.alloc, log.transactions.len(), twins, &shown)? {
                return Ok(Finding::Unknown(Progress {
                    conflicts: 0,
                    violations: 0,
                }));
            }
            Ok(Finding::Holds(shown))
        }
        Verdict::Fails(steps) => Ok(Finding::Fails(steps)),
        Verdict::Unknown(progress) => Ok(Finding::Unknown(progress)),
    }
}

/// Whether steps that show that a stronger level fails show that of another too.
pub(crate) fn fails_too(scene: &Scene, promise: Promise, steps: &[Step]) -> Result<bool, NoMemory> {
    if promise == Promise::ReadUncommitted {
        return Ok(false);
    }
    let asked = rules_asked(scene, promise)?;
    refutes(scene.alloc, &asked, &scene.seen, steps)
}

/// What keeps a log from a level that fails, as it was found.
pub fn causes_of(
    scene: &Scene,
    promise: Promise,
    finding: &Finding,
    all: bool,
) -> Result<Vec<Cause>, NoMemory> {
    let asked = rules_asked(scene, promise)?;
    if promise == Promise::ReadUncommitted && !matches!(finding, Finding::Lost(_, _)) {
        let turns = bare(scene.alloc, &scene.seen)?;
        return told(scene, &asked, &turns, finding, all);
    }
    let mut causes = told(scene, &asked, &scene.seen, finding, all)?;
    name_by_guarantee(promise, &mut causes);
    Ok(causes)
}

/// What is told of a log.
fn told(
    scene: &Scene,
    asked: &Asked,
    log: &Log,
    finding: &Finding,
    all: bool,
) -> Result<Vec<Cause>, NoMemory> {
    let (steps, lost) = match finding {
        Finding::Fails(steps) => (steps.as_slice(), None),
        Finding::Lost(t, place) => (&[] as &[Step], Some((*t, *place))),
        Finding::Holds(_) | Finding::Unknown(_) => (&[] as &[Step], None),
    };
    let telling = Telling {
        history: &scene.log.history,
        log,
        lanes: &scene.lanes,
        asked,
        steps,
        lost,
    };
    causes_at(scene.alloc, telling, all)
}

/// Names what steps alone show by the guarantee that is broken.
fn name_by_guarantee(promise: Promise, causes: &mut Vec<Cause>) {
    let anomaly = match promise {
        Promise::MonotonicReads => Anomaly::ReadsGoBack,
        Promise::ReadYourWrites => Anomaly::OwnWriteMissed,
        Promise::MonotonicWrites => Anomaly::WritesApart,
        Promise::WritesFollowReads => Anomaly::CauseMissed,
        _ => return,
    };
    for cause in causes.iter_mut() {
        if cause.steps > 0 {
            cause.anomaly = anomaly;
        }
    }
}
