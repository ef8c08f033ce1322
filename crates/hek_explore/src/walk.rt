//! All orders of a schedule's moves at once: beginnings whose plays go on alike are merged.
ghost use Rattle.std.specs.Prelude.{◌≡◌, [], ◌∷◌, IfOk, IfSome, IsTrue, OnOk};
ghost use Rattle.hek_explore.specs.Counts.{Group, IsCensus, IsCensusOf, IsPutIf, IsStart};
ghost use Rattle.hek_explore.specs.Deals.{AreAllExtended, IsExtendedBy, IsNextLayer, IsTallied};
ghost use Rattle.hek_explore.specs.Steps.{AreRuled, EndsWith, HasKey};
ghost use Rattle.hek_permute.specs.Moves.{counts_of};

use crate::class::{Class, Layer};
use crate::crew::{Alone, Crew, Team};
use crate::groups::Grouped;
use crate::grow::{Grown, replay};
use crate::key::Key;
use crate::survey::Survey;
use hek_permute::{
    Form, Moves, OrderFault, Outcome, Play, Tally, first_places, move_count, moves_of, outcome_of,
};
use hek_program::Rule;
use hek_rules::Schedule;
use hek_worker::Book;
use std::alloc::Global;
use std::collections::VecDeque;
use std::thread::Threads;

/// How many classes of a layer are played on before what they become is put into the next layer.
const BATCH: usize = 1024;

/// The outcomes of all orders of a schedule's moves, and how many orders have each. Beginnings of orders whose plays go
/// on alike are a class, and only the first beginning of each class is played; None if there are more classes than the
/// limit. Rows come in the order of their first orders. `survey` is told how far it has come.
pub fn explore<S: Survey>(
    alloc: Global,
    schedule: &Schedule,
    rules: &[Rule],
    form: Form,
    limit: u64,
    survey: &mut S,
) -> Result<Option<Tally>, OrderFault>
    ensures { IfOk result (λ found. IfSome found (IsCensus schedule.now rules.now form)) }
{
    explore_with(alloc, schedule, rules, form, limit, &Alone, survey)
}

/// `explore`, where as many threads as there are jobs play the beginnings of a layer, if they can be started.
pub fn explore_in_threads<R: Threads + Sync, S: Survey>(
    system: &R,
    jobs: u64,
    alloc: Global,
    schedule: &Schedule,
    rules: &[Rule],
    form: Form,
    limit: u64,
    survey: &mut S,
) -> Result<Option<Tally>, OrderFault>
    ensures { IfOk result (λ found. IfSome found (IsCensus schedule.now rules.now form)) }
{
    let team = Team { system, jobs };
    explore_with(alloc, schedule, rules, form, limit, &team, survey)
}

/// `explore`, where the crew plays the beginnings.
fn explore_with<C: Crew, S: Survey>(
    alloc: Global,
    schedule: &Schedule,
    rules: &[Rule],
    form: Form,
    limit: u64,
    crew: &C,
    survey: &mut S,
) -> Result<Option<Tally>, OrderFault>
    requires { C.can_play crew.now }
    ensures { IfOk result (λ found. IfSome found (IsCensus schedule.now rules.now form)) }
{
    let grouped = Grouped::of(alloc, schedule)?;
    let moves = moves_of(alloc, schedule, rules)?;
    explore_moves(alloc, &grouped, moves.as_slice(), form, limit, crew, survey)
}

/// `explore`, given the moves of all transactions.
fn explore_moves<C: Crew, S: Survey>(
    alloc: Global,
    schedule: &Grouped<'_>,
    moves: &[Moves],
    form: Form,
    limit: u64,
    crew: &C,
    survey: &mut S,
) -> Result<Option<Tally>, OrderFault>
    requires are { AreRuled schedule.now moves.now }
    requires can { C.can_play crew.now }
    ensures { IfOk result (λ found. IfSome found (IsCensusOf schedule.now form moves.now)) }
{
    let left = counts_of(alloc, moves, form)?;
    let Some(most) = sum_of(left.as_slice()) else {
        return Err(OrderFault::TooMany);
    };
    let mut layer = first_layer(alloc, schedule, moves, form, left)?;
    let mut room = limit;
    survey.begin(most);
    for _ in 0..most {
        let Some(next) = next_layer(alloc, schedule, moves, form, &layer, room, crew, survey)?
        else {
            return Ok(None);
        };
        layer = next;
        survey.end_layer(layer.classes().len());
        let Some(rest) = room.checked_sub(layer.classes().len() as u64) else {
            return Ok(None);
        };
        room = rest;
    }
    Ok(Some(tally_of(alloc, schedule, moves, form, &layer)?))
}

/// How many moves each transaction has.
fn counts_of(alloc: Global, moves: &[Moves], form: Form) -> Result<Vec<u64>, OrderFault>
    ensures { IfOk result (λ counts. counts.items ≡ counts_of form moves.now) }
{
    let mut counts = Vec::with_capacity(alloc, moves.len())?;
    for of_one in moves {
        counts.push(move_count(of_one, form) as u64)?;
    }
    Ok(counts)
}

/// The sum, if it fits.
fn sum_of(counts: &[u64]) -> Option<u64>
    ensures { IfSome result (λ all. all ≡ sum counts.now) }
{
    let mut all: u64 = 0;
    for count in counts {
        all = all.checked_add(*count)?;
    }
    Some(all)
}

ghost use Rattle.std.specs.Prelude.{sum};

/// The class of the beginning without moves.
fn first_layer(
    alloc: Global,
    schedule: &Grouped<'_>,
    moves: &[Moves],
    form: Form,
    left: Vec<u64>,
) -> Result<Layer, OrderFault>
    requires { AreRuled schedule.now moves.now }
    ensures { IfOk result (λ layer. (g : Group) × IsStart schedule.now form moves.now left.items g × (layer ≡ g ∷ [])) }
{
    let mut layer = Layer::new(alloc)?;
    layer.push(start(alloc, schedule, moves, form, left)?)?;
    Ok(layer)
}

fn start(
    alloc: Global,
    schedule: &Grouped<'_>,
    moves: &[Moves],
    form: Form,
    left: Vec<u64>,
) -> Result<Class, OrderFault>
    requires { AreRuled schedule.now moves.now }
    ensures { IfOk result (IsStart schedule.now form moves.now left.items) }
{
    let key = first_key(alloc, schedule, moves)?;
    Ok(Class {
        first: Vec::new(alloc),
        orders: 1,
        left,
        key,
        longest: 0,
    })
}

/// The key of the play without moves.
fn first_key(alloc: Global, schedule: &Grouped<'_>, moves: &[Moves]) -> Result<Key, OrderFault>
    requires { AreRuled schedule.now moves.now }
    ensures { IfOk result (λ key. (form : Form) → HasKey schedule.now form moves.now [] key 0) }
{
    let book = Book::load(alloc, schedule.schedule())?;
    let places = first_places(alloc, moves)?;
    let key = Key::of(alloc, schedule.groups(), &book, places.as_slice())?;
    let (_machine, _history) = book.into_parts();
    Ok(key)
}

/// The classes with one more move; None if there are more than there is room for.
fn next_layer<C: Crew, S: Survey>(
    alloc: Global,
    schedule: &Grouped<'_>,
    moves: &[Moves],
    form: Form,
    layer: &Layer,
    room: u64,
    crew: &C,
    survey: &mut S,
) -> Result<Option<Layer>, OrderFault>
    requires are { AreRuled schedule.now moves.now }
    requires can { C.can_play crew.now }
    ensures { IfOk result (λ found. IfSome found (IsNextLayer schedule.now form moves.now layer.now)) }
{
    let mut next = Layer::new(alloc)?;
    let mut rest = layer.classes();
    while !rest.is_empty() {
        let (batch, later) = rest.split_at(rest.len().min(BATCH));
        let grown = crew.grow(alloc, schedule, moves, form, batch)?;
        if !put_all(batch, grown, &mut next, room, survey)? {
            return Ok(None);
        }
        rest = later;
    }
    Ok(Some(next))
}

/// Puts what classes become among others. Answers whether there is room for all of these.
fn put_all<S: Survey>(
    classes: &[Class],
    mut all: VecDeque<Grown>,
    next: &mut Layer,
    room: u64,
    survey: &mut S,
) -> Result<bool, OrderFault>
    ensures { IfOk result (λ fits. IsTrue fits → AreAllExtended classes.now all.items next.old next.new) }
{
    let mut rest = classes;
    while let Some((class, later)) = rest.split_first() {
        let Some(grown) = all.pop_front() else {
            return Err(OrderFault::Mismatch);
        };
        extend(class, grown, next, survey)?;
        if next.classes().len() as u64 > room {
            return Ok(false);
        }
        rest = later;
    }
    Ok(true)
}

/// Puts what a class becomes among others.
fn extend<S: Survey>(
    class: &Class,
    mut grown: Grown,
    next: &mut Layer,
    survey: &mut S,
) -> Result<(), OrderFault>
    ensures { OnOk result (IsExtendedBy class.now grown next.old next.new) }
{
    while let Some(found) = grown.take_first() {
        put(found, next, survey)?;
    }
    Ok(())
}

/// Puts a class among others, if there is one.
fn put<S: Survey>(found: Option<Class>, next: &mut Layer, survey: &mut S) -> Result<(), OrderFault>
    ensures { OnOk result (IsPutIf found next.old next.new) }
{
    let Some(class) = found else {
        return Ok(());
    };
    survey.count_play();
    next.add(class)
}

/// The outcomes of the classes of whole orders, and how many orders have each.
fn tally_of(
    alloc: Global,
    schedule: &Grouped<'_>,
    moves: &[Moves],
    form: Form,
    layer: &Layer,
) -> Result<Tally, OrderFault>
    requires { AreRuled schedule.now moves.now }
    ensures { IfOk result (IsTallied schedule.now form moves.now layer.now) }
{
    let mut tally = Tally::new(alloc);
    let mut rest = layer.classes();
    while let Some((class, later)) = rest.split_first() {
        let outcome = outcome_in(alloc, schedule, moves, form, class)?;
        tally.note_all(outcome, class.orders(), class.first())?;
        class.precede(later)?;
        rest = later;
    }
    Ok(tally)
}

/// The outcome of a class's orders.
fn outcome_in(
    alloc: Global,
    schedule: &Grouped<'_>,
    moves: &[Moves],
    form: Form,
    class: &Class,
) -> Result<Outcome, OrderFault>
    requires { AreRuled schedule.now moves.now }
    ensures { IfOk result (EndsWith schedule.now form moves.now class.now.key) }
{
    let (book, _places) = replay(alloc, schedule, moves, form, class)?;
    let (machine, history) = book.into_parts();
    Ok(outcome_of(alloc, schedule.schedule(), Play { machine, history })?)
}
