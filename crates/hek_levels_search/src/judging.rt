//! What a log is by the rules that are asked for: what the search found is judged, and only then is it the verdict.
ghost use Rattle.std.specs.Prelude.{IfOk};
ghost use Rattle.hek_levels_search.specs.Verdicts.{IsVerdict, IsTurned};

use crate::certificate::Making;
use crate::front::points_from_front;
use crate::guessed::{points_by_guess, points_in_order};
use crate::known::Known;
use crate::listing::{Listed, are_few, has_scans, list, list_all_of};
use crate::lists::{add, at};
use crate::problem::{Absence, Problem, reduced};
use crate::replay::Replay;
use crate::seek::Outcome;
use crate::start::prepared;
use crate::steps::steps_of;
use hek_history::Point;
use hek_levels::{
    Asked, Certificate, Log, Turn, explains, explains_by_points, is_committed, is_possible,
};
use hek_levels_refutation::{Step, refutes};
use hek_rules::NoMemory;
use std::alloc::Global;

/// Where a transaction is expected to read, and to commit: numbers of any scale.
#[derive(Clone, Copy)]
pub struct Hint {
    pub begin: u64,
    pub commit: u64,
}

/// The hint of a transaction; without one its place in the log.
pub(crate) fn hint_at(hints: &[Hint], t: usize) -> Hint {
    let by_place = Hint {
        begin: t as u64,
        commit: t as u64,
    };
    at(hints, t, by_place)
}

/// Where transactions are expected, and turns that they may have, one a transaction or none: nothing says so, but a search may assume
/// them where no other finds an answer.
#[derive(Drop)]
pub struct Guess {
    pub hints: Vec<Hint>,
    pub turns: Vec<Turn>,
}

/// How far a search came that found nothing.
#[derive(Clone, Copy)]
pub struct Progress {
    /// How many conflicts it met.
    pub conflicts: usize,
    /// How many moments fail in the last order, as far as they are known.
    pub violations: usize,
}

/// Nothing was found, and nothing is known of how far it is.
const NOWHERE: Progress = Progress {
    conflicts: 0,
    violations: 0,
};

/// What shows that a log has an explanation.
#[derive(Drop)]
pub enum Shown {
    /// Each transaction reads at a point what those left that committed before it.
    Points(Vec<Point>),
    /// An order with a source for each read.
    Sources(Certificate),
}

/// What a log is by some rules.
#[derive(Drop)]
pub enum Verdict {
    /// It has this explanation.
    Holds(Shown),
    /// It has none, as these steps show.
    Fails(Vec<Step>),
    /// Neither was found.
    Unknown(Progress),
}

/// How often keys that scans miss are added, and at most how many of a scan at first.
const ROUNDS: usize = 24;

const AT_FIRST: usize = 4;

/// Over how many places of a guess a transaction is assumed to take place, where nothing else helps.
const WIDTHS: [u64; 2] = [24, 100];

/// Into how many parts the effort of the search that assumes nothing is divided: each one that assumes something has a part.
const SHARES: usize = 16;

/// The lane of turns that are assumed.
const ASSUMED: usize = usize::MAX - 1;

/// What is searched.
#[derive(Clone, Copy)]
struct Question<'a> {
    alloc: Global,
    asked: &'a Asked,
    log: &'a Log,
    guesses: &'a [Guess],
    effort: usize,
}

/// Points as a verdict, if they are an explanation.
fn judge_points(
    alloc: Global,
    asked: &Asked,
    log: &Log,
    points: Vec<Point>,
) -> Result<Verdict, NoMemory>
    ensures { IfOk result (λ verdict. IsVerdict asked.now log.now verdict) }
{
    if explains_by_points(alloc, asked, log, points.as_slice())? {
        Ok(Verdict::Holds(Shown::Points(points)))
    } else {
        Ok(Verdict::Unknown(NOWHERE))
    }
}

/// A certificate as a verdict, if it is an explanation.
fn judge_sources(
    alloc: Global,
    asked: &Asked,
    log: &Log,
    certificate: Certificate,
) -> Result<Verdict, NoMemory>
    ensures { IfOk result (λ verdict. IsVerdict asked.now log.now verdict) }
{
    if explains(alloc, asked, log, &certificate)? {
        Ok(Verdict::Holds(Shown::Sources(certificate)))
    } else {
        Ok(Verdict::Unknown(NOWHERE))
    }
}

/// Steps as a verdict, if they show that there is no explanation.
fn judge_steps(
    alloc: Global,
    asked: &Asked,
    log: &Log,
    steps: Vec<Step>,
) -> Result<Verdict, NoMemory>
    ensures { IfOk result (λ verdict. IsVerdict asked.now log.now verdict) }
{
    if refutes(alloc, asked, log, steps.as_slice())? {
        Ok(Verdict::Fails(steps))
    } else {
        Ok(Verdict::Unknown(NOWHERE))
    }
}

/// Whether there is a verdict.
fn is_known(verdict: &Verdict) -> bool {
    match verdict {
        Verdict::Holds(_) | Verdict::Fails(_) => true,
        Verdict::Unknown(_) => false,
    }
}

/// What a search comes to that goes on with more readings.
#[derive(Drop)]
enum Turned {
    Judged(Verdict),
    /// These keys that scans miss are to be readings too.
    Missed(Vec<Absence>),
}

/// Where a guess expects transactions.
fn hints_of<'a>(guesses: &'a [Guess], place: usize) -> &'a [Hint] {
    match guesses.get(place) {
        Some(guess) => guess.hints.as_slice(),
        None => &[],
    }
}

/// The turns of a guess.
fn turns_of<'a>(guesses: &'a [Guess], place: usize) -> &'a [Turn] {
    match guesses.get(place) {
        Some(guess) => guess.turns.as_slice(),
        None => &[],
    }
}

/// Turns that say that each transaction takes place within so many places after its own by a guess.
fn within(alloc: Global, log: &Log, hints: &[Hint], width: u64) -> Result<Vec<Turn>, NoMemory> {
    let mut order = Vec::new(alloc);
    let mut turns = Vec::new(alloc);
    for t in 0..log.transactions.len() {
        add(&mut order, t)?;
        add(
            &mut turns,
            Turn {
                lane: ASSUMED,
                first: 0,
                last: u64::MAX,
                seen: true,
            },
        )?;
    }
    order.sort_unstable_by_key(|t| (hint_at(hints, *t).commit, *t));
    for (place, t) in order.iter().enumerate() {
        if is_committed(log, *t) {
            if let Some(turn) = turns.get_mut(*t) {
                turn.first = place as u64;
                turn.last = (place as u64).saturating_add(width);
            }
        }
    }
    Ok(turns)
}

/// Whether each transaction reads where it commits.
fn is_whole(asked: &Asked, log: &Log) -> bool {
    for t in 0..log.transactions.len() {
        if !asked.of(t).whole {
            return false;
        }
    }
    true
}

/// The log as a search sees it.
fn problem_of<'a>(
    question: Question<'a>,
    listed: &[Absence],
    assumed: &[Turn],
) -> Result<Problem<'a>, NoMemory> {
    reduced(
        question.alloc,
        question.log,
        question.asked,
        listed,
        assumed,
    )
}

/// All keys that scans miss are readings, if they are few.
fn list_few(question: Question<'_>, listed: &mut Listed) -> Result<(), NoMemory> {
    if !has_scans(question.log) {
        return Ok(());
    }
    let problem = problem_of(question, &[], &[])?;
    if !are_few(question.log, &problem) {
        return Ok(());
    }
    for t in 0..problem.transactions() {
        if is_possible(question.log, t) {
            list_all_of(question.log, &problem, t, listed)?;
        }
    }
    listed.sort_unstable();
    listed.dedup();
    Ok(())
}

/// Points as a verdict; or the keys with rows that scans miss there.
fn turn_points(
    question: Question<'_>,
    problem: &Problem,
    points: Vec<Point>,
    most: usize,
) -> Result<Turned, NoMemory>
    ensures { IfOk result (λ turned. IsTurned question.entry.asked.now question.entry.log.now turned) }
{
    let missed = problem.missed(question.alloc, points.as_slice(), most)?;
    if !missed.is_empty() {
        return Ok(Turned::Missed(missed));
    }
    let verdict = judge_points(question.alloc, question.asked, question.log, points)?;
    Ok(Turned::Judged(verdict))
}

/// An order with its sources as a verdict; or the keys that scans miss that have no source yet.
fn turn_sources(question: Question<'_>, known: &Known, replay: &Replay) -> Result<Turned, NoMemory>
    ensures { IfOk result (λ turned. IsTurned question.entry.asked.now question.entry.log.now turned) }
{
    let Making { certificate, left } = known.certificate(&replay.sourcing)?;
    if !left.is_empty() {
        return Ok(Turned::Missed(left));
    }
    let verdict = judge_sources(question.alloc, question.asked, question.log, certificate)?;
    Ok(Turned::Judged(verdict))
}

/// The points by a guess, with these readings, as a verdict; or the keys with rows that scans miss there. Some transaction reads before it
/// commits.
fn guess_once(
    question: Question<'_>,
    listed: &[Absence],
    hints: &[Hint],
    most: usize,
) -> Result<Turned, NoMemory>
    ensures { IfOk result (λ turned. IsTurned question.entry.asked.now question.entry.log.now turned) }
{
    let problem = problem_of(question, listed, &[])?;
    let points = points_by_guess(question.alloc, &problem, hints)?;
    if problem.is_by_points {
        return turn_points(question, &problem, points, most);
    }
    let verdict = judge_points(question.alloc, question.asked, question.log, points)?;
    Ok(Turned::Judged(verdict))
}

/// The points by a guess as a verdict.
fn by_guess(
    question: Question<'_>,
    listed: &mut Listed,
    hints: &[Hint],
) -> Result<Verdict, NoMemory>
    ensures { IfOk result (λ verdict. IsVerdict question.entry.asked.now question.entry.log.now verdict) }
{
    if is_whole(question.asked, question.log) {
        let points = points_in_order(question.alloc, question.log, hints)?;
        return judge_points(question.alloc, question.asked, question.log, points);
    }
    let mut most = AT_FIRST;
    for _ in 0..ROUNDS {
        match guess_once(question, listed.as_slice(), hints, most)? {
            Turned::Judged(verdict) => return Ok(verdict),
            Turned::Missed(missed) => {
                if !list(listed, missed.as_slice())? {
                    break;
                }
            }
        }
        most = most.saturating_mul(2);
    }
    Ok(Verdict::Unknown(NOWHERE))
}

/// The points of an order from the front as a verdict.
fn by_front(
    question: Question<'_>,
    listed: &[Absence],
    hints: &[Hint],
    assumed: &[Turn],
) -> Result<Verdict, NoMemory>
    ensures { IfOk result (λ verdict. IsVerdict question.entry.asked.now question.entry.log.now verdict) }
{
    let problem = problem_of(question, listed, assumed)?;
    match points_from_front(question.alloc, &problem, hints)? {
        Some(points) => judge_points(question.alloc, question.asked, question.log, points),
        None => Ok(Verdict::Unknown(NOWHERE)),
    }
}

/// The steps of a conflict as a verdict.
fn turn_steps(question: Question<'_>, known: &Known, conflict: usize) -> Result<Turned, NoMemory>
    ensures { IfOk result (λ turned. IsTurned question.entry.asked.now question.entry.log.now turned) }
{
    let steps = steps_of(known, conflict)?;
    let verdict = judge_steps(question.alloc, question.asked, question.log, steps)?;
    Ok(Turned::Judged(verdict))
}

/// What a search came to. Its steps count if nothing is assumed.
fn turn_outcome(
    question: Question<'_>,
    known: &Known,
    replay: &mut Replay,
    outcome: Outcome,
    most: usize,
) -> Result<Turned, NoMemory>
    ensures { IfOk result (λ turned. IsTurned question.entry.asked.now question.entry.log.now turned) }
{
    match outcome {
        Outcome::Ordered if known.problem.is_by_points => {
            let points = known.points()?;
            turn_points(question, known.problem, points, most)
        }
        Outcome::Ordered => {
            replay.finish(known)?;
            turn_sources(question, known, replay)
        }
        Outcome::Refuted(_) if known.is_assuming => Ok(Turned::Judged(Verdict::Unknown(NOWHERE))),
        Outcome::Refuted(conflict) => turn_steps(question, known, conflict),
        Outcome::Unknown(violations) => {
            let progress = Progress {
                conflicts: known.conflicts,
                violations,
            };
            Ok(Turned::Judged(Verdict::Unknown(progress)))
        }
    }
}

/// What a search comes to.
fn seek(
    question: Question<'_>,
    listed: &[Absence],
    hints: &[Hint],
    assumed: &[Turn],
    most: usize,
) -> Result<Turned, NoMemory>
    ensures { IfOk result (λ turned. IsTurned question.entry.asked.now question.entry.log.now turned) }
{
    let problem = problem_of(question, listed, assumed)?;
    let mut known = prepared(question.alloc, &problem, hints, !assumed.is_empty());
    let mut replay = Replay::new(question.alloc);
    let outcome = known.seek(question.effort, &mut replay)?;
    turn_outcome(question, &known, &mut replay, outcome, most)
}

/// Searches until no scan misses a key that has a row.
fn by_search(
    question: Question<'_>,
    listed: &mut Listed,
    hints: &[Hint],
    assumed: &[Turn],
) -> Result<Verdict, NoMemory>
    ensures { IfOk result (λ verdict. IsVerdict question.entry.asked.now question.entry.log.now verdict) }
{
    let mut most = AT_FIRST;
    for _ in 0..ROUNDS {
        match seek(question, listed.as_slice(), hints, assumed, most)? {
            Turned::Judged(verdict) => return Ok(verdict),
            Turned::Missed(missed) => {
                if !list(listed, missed.as_slice())? {
                    break;
                }
            }
        }
        most = most.saturating_mul(2);
    }
    Ok(Verdict::Unknown(NOWHERE))
}

/// A verdict by searches that assume the turns of a guess.
fn by_turns(question: Question<'_>, listed: &mut Listed) -> Result<Verdict, NoMemory>
    ensures { IfOk result (λ verdict. IsVerdict question.entry.asked.now question.entry.log.now verdict) }
{
    for place in 0..question.guesses.len() {
        let hints = hints_of(question.guesses, place);
        let assumed = turns_of(question.guesses, place);
        if !assumed.is_empty() {
            let found = by_search(question, listed, hints, assumed)?;
            if is_known(&found) {
                return Ok(found);
            }
        }
    }
    Ok(Verdict::Unknown(NOWHERE))
}

/// A verdict by searches that assume that each transaction takes place near its place by a guess.
fn by_widths(
    question: Question<'_>,
    listed: &mut Listed,
    hints: &[Hint],
) -> Result<Verdict, NoMemory>
    ensures { IfOk result (λ verdict. IsVerdict question.entry.asked.now question.entry.log.now verdict) }
{
    for width in WIDTHS {
        let assumed = within(question.alloc, question.log, hints, width)?;
        let found = by_search(question, listed, hints, assumed.as_slice())?;
        if is_known(&found) {
            return Ok(found);
        }
    }
    Ok(Verdict::Unknown(NOWHERE))
}

/// A verdict by searches that assume something.
fn by_assumption(question: Question<'_>, listed: &mut Listed) -> Result<Verdict, NoMemory>
    ensures { IfOk result (λ verdict. IsVerdict question.entry.asked.now question.entry.log.now verdict) }
{
    let found = by_turns(question, listed)?;
    if is_known(&found) {
        return Ok(found);
    }
    for place in 0..question.guesses.len() {
        let found = by_widths(question, listed, hints_of(question.guesses, place))?;
        if is_known(&found) {
            return Ok(found);
        }
    }
    Ok(Verdict::Unknown(NOWHERE))
}

/// The points of an order from the front as a verdict, by the first guess or with the turns of another.
fn by_fronts(question: Question<'_>, listed: &[Absence]) -> Result<Verdict, NoMemory>
    ensures { IfOk result (λ verdict. IsVerdict question.entry.asked.now question.entry.log.now verdict) }
{
    if !is_whole(question.asked, question.log) {
        return Ok(Verdict::Unknown(NOWHERE));
    }
    let found = by_front(question, listed, hints_of(question.guesses, 0), &[])?;
    if is_known(&found) {
        return Ok(found);
    }
    for place in 0..question.guesses.len() {
        let hints = hints_of(question.guesses, place);
        let assumed = turns_of(question.guesses, place);
        if !assumed.is_empty() {
            let found = by_front(question, listed, hints, assumed)?;
            if is_known(&found) {
                return Ok(found);
            }
        }
    }
    Ok(Verdict::Unknown(NOWHERE))
}

/// The points by each guess as a verdict.
fn by_guesses(question: Question<'_>, listed: &mut Listed) -> Result<Verdict, NoMemory>
    ensures { IfOk result (λ verdict. IsVerdict question.entry.asked.now question.entry.log.now verdict) }
{
    for place in 0..question.guesses.len() {
        let found = by_guess(question, listed, hints_of(question.guesses, place))?;
        if is_known(&found) {
            return Ok(found);
        }
    }
    Ok(Verdict::Unknown(NOWHERE))
}

/// A verdict without a search: by points as they are guessed, or by an order from the front.
fn by_points(question: Question<'_>, listed: &mut Listed) -> Result<Verdict, NoMemory>
    ensures { IfOk result (λ verdict. IsVerdict question.entry.asked.now question.entry.log.now verdict) }
{
    let found = by_guesses(question, listed)?;
    if is_known(&found) {
        return Ok(found);
    }
    by_fronts(question, listed.as_slice())
}

/// A verdict by searches: first by one that assumes nothing, and where none has one, how far that came.
fn by_all_searches(question: Question<'_>, listed: &mut Listed) -> Result<Verdict, NoMemory>
    ensures { IfOk result (λ verdict. IsVerdict question.entry.asked.now question.entry.log.now verdict) }
{
    let found = by_search(question, listed, hints_of(question.guesses, 0), &[])?;
    if is_known(&found) {
        return Ok(found);
    }
    let less = Question {
        effort: question.effort / SHARES,
        ..question
    };
    let assumed = by_assumption(less, listed)?;
    if is_known(&assumed) {
        return Ok(assumed);
    }
    Ok(found)
}

/// What a log is by the rules that are asked for: first by points as they are guessed, then by a search with up to `effort` repairs of an
/// order, one for which many nodes are looked at counting as several, and where that ends without an answer by others that assume more, each
/// with a sixteenth of that. Each guess says where each transaction is expected; the first is that of the search. Without one it is expected at its place in
/// the log.
pub fn judge(
    alloc: Global,
    asked: &Asked,
    log: &Log,
    guesses: &[Guess],
    effort: usize,
) -> Result<Verdict, NoMemory>
    ensures { IfOk result (λ verdict. IsVerdict asked.now log.now verdict) }
{
    let question = Question {
        alloc,
        asked,
        log,
        guesses,
        effort,
    };
    let mut listed = Vec::new(alloc);
    list_few(question, &mut listed)?;
    let found = by_points(question, &mut listed)?;
    if is_known(&found) {
        return Ok(found);
    }
    by_all_searches(question, &mut listed)
}
