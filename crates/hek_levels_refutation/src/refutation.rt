//! Whether a certificate shows that a log has no explanation.
ghost use Rattle.std.specs.Prelude.{◌≡◌, ◌<◌, ◌++◌, ◌∷◌, [], length, Option, Some, None, IsTrue, IfOk, OnOk, IfSome, MatchOption};
ghost use Rattle.hek_levels_refutation.specs.declared.claim.Claim.{Claim as TheClaim};
ghost use Rattle.hek_levels_refutation.specs.declared.claim.Claim.TheVariants.{Contradiction};
ghost use Rattle.hek_levels.specs.Explanations.{HasNoExplanation};
ghost use Rattle.hek_levels_refutation.specs.Claims.{FollowsFrom, IsContraryIn, NoneAssumed, IsLastAssumed, IsTurned, IsSound, IsOutcome};

use crate::candidates::{drop_first, drop_last, exhausted, only, skip, skip_back, start};
use crate::claim::{Claim, Context, Shown, Step};
use crate::ordering::{
    chain, committed, contra, first, impossible, inside, newest, not_later, not_older, read, turn,
};
use crate::premises::is_same;
use crate::seeing::{by_link, own, shows, shows_before, shows_linked, whole};
use hek_levels::{Asked, Log, Place, Writer};
use hek_rules::NoMemory;
use std::alloc::Global;

/// By the rules of candidates.
fn by_candidates(context: &Context<'_>, step: Step) -> Option<Claim>
    ensures { IfSome result (λ claim. FollowsFrom context.now claim) }
{
    match step {
        Step::Start {
            reader,
            place,
            taken,
        } => start(context, reader, place, taken),
        Step::Skip { from, number } => skip(context, from, number),
        Step::Drop { from, not } => drop_first(context, from, not),
        Step::SkipBack { from, number } => skip_back(context, from, number),
        Step::DropBack { from, not } => drop_last(context, from, not),
        Step::Only { from } => only(context, from),
        Step::Exhausted { from } => exhausted(context, from),
        _ => None,
    }
}

/// By the rules that order writers.
fn by_order(context: &Context<'_>, step: Step) -> Option<Claim>
    ensures { IfSome result (λ claim. FollowsFrom context.now claim) }
{
    match step {
        Step::First { second } => Some(first(second)),
        Step::Committed { transaction } => committed(context, transaction),
        Step::In { premise, taken } => inside(context, premise, taken),
        Step::Read { source } => read(context, source),
        Step::Turn {
            first: x,
            second: t,
            first_taken,
            second_taken,
        } => turn(context, x, t, first_taken, second_taken),
        Step::Chain {
            first: p,
            second: q,
        } => chain(context, p, q),
        _ => None,
    }
}

/// By the rules of what is seen.
fn by_seeing(context: &Context<'_>, step: Step) -> Option<Claim>
    ensures { IfSome result (λ claim. FollowsFrom context.now claim) }
{
    match step {
        Step::Own { source, place } => own(context, source, place),
        Step::Whole {
            before,
            place,
            taken,
        } => whole(context, before, place, taken),
        Step::Linked {
            reader,
            place,
            taken,
            link,
        } => by_link(context, reader, place, taken, link),
        Step::ShowsBefore { visible, before } => shows_before(context, visible, before),
        Step::Shows { visible, source } => shows(context, visible, source),
        Step::ShowsLinked { visible, link } => shows_linked(context, visible, link),
        _ => None,
    }
}

/// By the rules of sources that are not newest, and of contradictions.
fn by_axiom(context: &Context<'_>, step: Step) -> Option<Claim>
    ensures { IfSome result (λ claim. FollowsFrom context.now claim) }
{
    match step {
        Step::Newest { visible, source } => newest(context, visible, source),
        Step::NotLater { place, before } => not_later(context, place, before),
        Step::NotOlder { visible, before } => not_older(context, visible, before),
        Step::Contra { premise } => contra(context, premise),
        Step::Impossible { transaction, taken } => impossible(context, transaction, taken),
        _ => None,
    }
}

/// What a step that is not assumed says, if it follows.
fn conclusion(context: &Context<'_>, step: Step) -> Option<Claim>
    ensures { IfSome result (λ claim. FollowsFrom context.now claim) }
{
    let candidates = by_candidates(context, step);
    if candidates.is_some() {
        return candidates;
    }
    let ordered = by_order(context, step);
    if ordered.is_some() {
        return ordered;
    }
    let seen = by_seeing(context, step);
    if seen.is_some() {
        return seen;
    }
    by_axiom(context, step)
}

/// One case of two.
#[derive(Clone, Copy)]
struct Case {
    claim: Claim,
    contrary: Claim,
}

/// The first is before the second, or the other way round.
fn before_case(context: &Context<'_>, first: Writer, second: Writer) -> Option<Case>
    ensures { IfSome result (λ case. IsContraryIn context.now case.claim case.contrary) }
{
    // The proof counts the claims, and a length that was asked for is in range.
    let _shown = context.shown.len();
    if is_same(first, second) {
        return None;
    }
    Some(Case {
        claim: Claim::Before { first, second },
        contrary: Claim::Before {
            first: second,
            second: first,
        },
    })
}

/// The writer is the source, or is not.
fn source_case(context: &Context<'_>, reader: usize, place: Place, writer: Writer) -> Option<Case>
    ensures { IfSome result (λ case. IsContraryIn context.now case.claim case.contrary) }
{
    // The proof counts the claims, and a length that was asked for is in range.
    let _shown = context.shown.len();
    Some(Case {
        claim: Claim::Source {
            reader,
            place,
            writer,
        },
        contrary: Claim::Not {
            reader,
            place,
            writer,
        },
    })
}

/// The case that a step assumes.
fn case_of(context: &Context<'_>, step: Step) -> Option<Case>
    ensures { IfSome result (λ case. IsContraryIn context.now case.claim case.contrary) }
{
    match step {
        Step::AssumeBefore {
            first: x,
            second: t,
        } => before_case(context, x, t),
        Step::AssumeSource {
            reader,
            place,
            writer,
        } => source_case(context, reader, place, writer),
        _ => None,
    }
}

/// What a step adds to what is shown, if it may.
fn addition(context: &Context<'_>, step: Step) -> Option<Shown>
    ensures follows { IfSome result (λ new. new.contrary ≡ None → FollowsFrom context.now new.claim) }
    ensures turns { IfSome result (λ new. (c : TheClaim) → new.contrary ≡ Some c → IsContraryIn context.now new.claim c) }
{
    match case_of(context, step) {
        Some(case) => Some(Shown {
            claim: case.claim,
            contrary: Some(case.contrary),
        }),
        None => {
            match conclusion(context, step) {
                Some(claim) => Some(Shown {
                    claim,
                    contrary: None,
                }),
                None => None,
            }
        }
    }
}

/// The place of the last that is assumed, with its contrary.
#[derive(Clone, Copy)]
struct Assumed {
    place: usize,
    contrary: Claim,
}

/// The last that is assumed.
fn last_assumed(shown: &[Shown]) -> Option<Assumed>
    ensures { MatchOption result (NoneAssumed shown.now) (λ last. IsLastAssumed shown.now last.place last.contrary) }
{
    let mut n = shown.len();
    while n > 0 {
        n -= 1;
        if let Some(contrary) = shown[n].contrary {
            return Some(Assumed { place: n, contrary });
        }
    }
    None
}

/// The n-th goes, with all after it, and its contrary comes.
fn turn_over(shown: &mut Vec<Shown>, n: usize, contrary: Claim) -> Result<(), NoMemory>
    requires { n < length shown.old.items }
    ensures { OnOk result (IsTurned shown.old.items n contrary shown.new.items) }
{
    shown.truncate(n);
    shown.push(Shown {
        claim: contrary,
        contrary: None,
    })?;
    Ok(())
}

/// One more is shown.
fn add(shown: &mut Vec<Shown>, new: Shown) -> Result<(), NoMemory>
    ensures { OnOk result (shown.new.items ≡ shown.old.items ++ new ∷ []) }
{
    shown.push(new)?;
    Ok(())
}

/// Whether what is shown is a contradiction.
fn is_contradiction(new: Shown) -> bool
    ensures { IsTrue result → (new.claim ≡ Contradiction) × (new.contrary ≡ None) }
{
    match (new.claim, new.contrary) {
        (Claim::Contradiction, None) => true,
        _ => false,
    }
}

/// How far a step leads.
#[derive(Clone, Copy)]
enum Outcome {
    /// It doesn't follow.
    Refused,
    Accepted,
    /// There is no explanation.
    Refuted,
}

/// One step.
fn advance(
    asked: &Asked,
    log: &Log,
    shown: &mut Vec<Shown>,
    step: Step,
) -> Result<Outcome, NoMemory>
    requires { IsSound asked.now log.now shown.old.items }
    ensures { IfOk result (λ outcome. IsOutcome asked.now log.now shown.new.items outcome) }
{
    let context = Context {
        asked,
        log,
        shown: shown.as_slice(),
    };
    let Some(new) = addition(&context, step) else {
        return Ok(Outcome::Refused);
    };
    if !is_contradiction(new) {
        add(shown, new)?;
        return Ok(Outcome::Accepted);
    }
    let Some(last) = last_assumed(shown.as_slice()) else {
        return Ok(Outcome::Refuted);
    };
    turn_over(shown, last.place, last.contrary)?;
    Ok(Outcome::Accepted)
}

/// Whether these steps show that the log has no explanation by these rules. Each step has to follow. A step that is
/// assumed opens a case, and a contradiction ends the innermost that is open: the contrary takes its place. Where
/// none is open, the log has no explanation.
pub fn refutes(alloc: Global, asked: &Asked, log: &Log, steps: &[Step]) -> Result<bool, NoMemory>
    ensures { IfOk result (λ yes. IsTrue yes → HasNoExplanation asked.now log.now) }
{
    let mut shown = Vec::new(alloc);
    for n in 0..steps.len() {
        match advance(asked, log, &mut shown, steps[n])? {
            Outcome::Refused => return Ok(false),
            Outcome::Refuted => return Ok(true),
            Outcome::Accepted => {}
        }
    }
    Ok(false)
}
