//! One order of moves, played on a new machine.
ghost use Rattle.std.specs.Prelude.{◌≡◌, ◌+◌, IfOk, OnOk, [], length, nat_lt, replicate, reverse, take};
ghost use Rattle.hek_worker.specs.Grammar.{answers};
ghost use Rattle.hek_worker.specs.History.{Replays};
ghost use Rattle.hek_permute.specs.Moves.{move_count};
ghost use Rattle.hek_permute.specs.Plays.{HasMoved, IsPlay, after_by, after_step, all_wait, answered, asks, asks_on, before_precommit, before_work, comes, due, event_by, first_asked, first_place, gives_up, is_it, is_over, is_running, may_go, next_by, noted, passed, rests, sends, shown_to, stage_after, step_event, turned, worked_at};

use crate::fault::OrderFault;
use crate::moves::{Form, Moves, move_count};
use crate::outcome::is_wait;
use hek_machine::Machine;
use hek_program::Act;
use hek_rules::{Event, NoMemory, Reply, Schedule, TxnId};
use hek_worker::{Book, Entry, Position, Stage};
use std::alloc::Global;

/// A play: the machine after it, and all events in the order in which they were made.
#[derive(Drop)]
pub struct Play {
    pub machine: Machine,
    pub history: Vec<Entry>,
}

/// Where a transaction is: what it does next, how many of its moves have come, and whether it had to wait.
#[derive(Clone, Copy, Debug, PartialEq, Eq)]
pub struct Place {
    pub stage: Stage,
    pub moves: usize,
    pub waits: bool,
}

/// Whose turn it is to make an event. Transactions are given by their places, from 0.
#[derive(Clone, Copy, Debug, PartialEq, Eq)]
pub enum Turn {
    /// This transaction goes on; then the others that wait are asked again.
    Goes(usize),
    /// This one waits and is asked again, then those after it that wait, but one; and whether one of those that were
    /// asked has got on.
    Asks(usize, Option<usize>, bool),
    /// A search for a deadlock.
    Looks,
    /// Nobody's: the next move may come.
    Rests,
}

impl Place {
    /// Whether the transaction's next event belongs to a move that has come. What an aborted transaction gives back
    /// belongs to any move.
    fn may_go(&self, of_one: &Moves, form: Form, txn: TxnId, history: &[Entry]) -> bool
        ensures { result ≡ may_go form (shown_to of_one.now txn history.now) self.now.moves self.now.stage }
    {
        match self.stage {
            Stage::Start => self.moves > 0,
            Stage::Working(place) => {
                let ahead = of_one.ahead(place, txn, history);
                is_more(self.moves, before_work(form), ahead)
            }
            Stage::Preparing => is_more(self.moves, before_precommit(form), of_one.steps().len()),
            Stage::Releasing(false) => self.moves >= move_count(of_one, form),
            Stage::Ended => false,
            _ => true,
        }
    }

    /// Whether the transaction fails while it waits: all its moves have come, the last of which is `fail`.
    fn gives_up(&self, of_one: &Moves, form: Form) -> bool
        ensures { result ≡ gives_up (move_count form of_one.now) of_one.now.fails self.now }
    {
        self.waits && of_one.fails() && self.moves >= move_count(of_one, form)
    }

    /// Whether the transaction goes no further: it waits and does not fail, or its next event belongs to a later move.
    fn rests(&self, of_one: &Moves, form: Form, txn: TxnId, history: &[Entry]) -> bool
        ensures { result ≡ rests form (shown_to of_one.now txn history.now) self.now }
    {
        let patient = self.waits && !self.gives_up(of_one, form);
        patient || !self.may_go(of_one, form, txn, history)
    }

    /// The stage that decides the transaction's next event.
    fn due(&self, of_one: &Moves, form: Form, txn: TxnId, history: &[Entry]) -> Stage
        ensures { result ≡ due form (shown_to of_one.now txn history.now) self.now }
    {
        if self.gives_up(of_one, form) {
            Stage::GivingUp
        } else {
            self.turned(of_one, form, txn, history)
        }
    }

    /// What the transaction does next if it doesn't wait: steps that are skipped are passed over, and one that fails does
    /// `fail` where its last move is due.
    fn turned(&self, of_one: &Moves, form: Form, txn: TxnId, history: &[Entry]) -> Stage
        ensures { result ≡ turned form (shown_to of_one.now txn history.now) self.now.stage }
    {
        let fails = of_one.fails();
        let stage = self.stage;
        match (form, stage) {
            (_, Stage::Working(place)) => {
                let ahead = of_one.ahead(place, txn, history);
                worked_at(form, fails, ahead, of_one.act(ahead, txn, history))
            }
            (Form::Split | Form::Event, Stage::Releasing(false)) => {
                if fails { Stage::GivingUp } else { stage }
            }
            _ => stage,
        }
    }

    /// The transaction's next event.
    fn event(&self, of_one: &Moves, form: Form, txn: TxnId, history: &[Entry]) -> Event
        ensures { result ≡ event_by txn (shown_to of_one.now txn history.now) (due form (shown_to of_one.now txn history.now) self.now) }
    {
        let stage = self.due(of_one, form, txn, history);
        match stage {
            Stage::Working(at) => step_event(txn, of_one.act(at, txn, history)),
            _ => Position { stage, turns: 0 }.event(txn, &[]),
        }
    }

    /// Where the transaction is after the reply to its next event; None if that cannot have this reply. The history is
    /// the one before the event.
    fn answered(
        &self,
        of_one: &Moves,
        form: Form,
        place: usize,
        txn: TxnId,
        history: &[Entry],
        reply: &Reply,
    ) -> Option<Place>
        requires { txn ≡ place + 1 }
        ensures { result ≡ answered form place (shown_to of_one.now txn history.now) self.now reply.now }
    {
        if is_wait(reply) {
            return Some(Place {
                stage: self.stage,
                moves: self.moves,
                waits: true,
            });
        }
        let due = self.due(of_one, form, txn, history);
        let stage = stage_after(of_one, txn, history, due, reply)?;
        Some(Place {
            stage,
            moves: self.moves,
            waits: false,
        })
    }
}

/// What a transaction does at the place of a step, by what the step does.
fn worked_at(form: Form, fails: bool, place: usize, act: Option<Act>) -> Stage
    ensures { result ≡ worked_at form fails place act }
{
    match act {
        Some(Act::Fails) => Stage::GivingUp,
        Some(_) => Stage::Working(place),
        None => match form {
            Form::Whole => {
                if fails {
                    Stage::GivingUp
                } else {
                    Stage::Working(place)
                }
            }
            Form::Split | Form::Event => Stage::Working(place),
        },
    }
}

/// The event of a step; past the last one there is `finish`.
fn step_event(txn: TxnId, act: Option<Act>) -> Event
    ensures { result ≡ step_event txn act }
{
    match act {
        Some(Act::Makes(event)) => event,
        Some(_) => Event::Fail(txn),
        None => Event::Finish(txn),
    }
}

/// The stage after the reply to a step.
fn after_step(event: Event, place: usize, count: usize, reply: &Reply) -> Option<Stage>
    ensures { result ≡ after_step event place count reply.now }
{
    if let Reply::Aborted(_) = reply {
        return Some(Stage::Releasing(true));
    }
    if !answers(event, reply) {
        return None;
    }
    if place < count {
        Some(Stage::Working(place + 1))
    } else {
        Some(Stage::Preparing)
    }
}

/// The stage after the reply to a transaction's event at a stage; None if it cannot have this reply.
fn stage_after(
    of_one: &Moves,
    txn: TxnId,
    history: &[Entry],
    stage: Stage,
    reply: &Reply,
) -> Option<Stage>
    ensures { result ≡ stage_after txn (shown_to of_one.now txn history.now) stage reply.now }
{
    match stage {
        Stage::Working(at) => {
            let event = step_event(txn, of_one.act(at, txn, history));
            after_step(event, at, of_one.steps().len(), reply)
        }
        _ => {
            let next = Position { stage, turns: 0 }.after(txn, &[], reply)?;
            Some(next.stage)
        }
    }
}

/// Whether an event of this kind can have the reply.
fn answers(event: Event, reply: &Reply) -> bool
    ensures { result ≡ answers event reply.now }
{
    match event {
        Event::Read(_, _) => matches!(reply, Reply::Found(_) | Reply::Absent),
        Event::Scan(_, _) => matches!(reply, Reply::Rows(_)),
        Event::Insert(_, _, _) => matches!(reply, Reply::Done | Reply::Exists),
        Event::Update(_, _, _) | Event::Delete(_, _) => matches!(
            reply,
            Reply::Done | Reply::Absent
        ),
        Event::Finish(_) => matches!(reply, Reply::Ready),
        _ => false,
    }
}

/// Whether the number of moves is above the sum of the others.
fn is_more(moves: usize, before: usize, place: usize) -> bool
    ensures { result ≡ nat_lt (before + place) moves }
{
    match moves.checked_sub(before) {
        Some(rest) => rest > place,
        None => false,
    }
}

/// How many moves come before a transaction's first read or write.
fn before_work(form: Form) -> usize
    ensures { result ≡ before_work form }
{
    match form {
        Form::Event => 1,
        Form::Whole | Form::Split => 0,
    }
}

/// How many moves beside the reads and writes come before a transaction's `precommit`.
fn before_precommit(form: Form) -> usize
    ensures { result ≡ before_precommit form }
{
    match form {
        Form::Event => 2,
        Form::Whole | Form::Split => 0,
    }
}

/// Plays an order of moves on a machine that is loaded with the schedule's rows and transactions. A transaction that
/// waits is asked again after each move of another, in the order of the declarations, as long as one of them gets on;
/// if its last move is `fail`, it fails when that comes, though it waits. When all transactions that have begun and not
/// ended wait, there is a `detect`. An aborted transaction gives everything back at once, and its remaining moves do
/// nothing.
pub fn play_order(
    alloc: Global,
    schedule: &Schedule,
    moves: &[Moves],
    form: Form,
    order: &[TxnId],
) -> Result<Play, OrderFault>
    ensures replays { IfOk result (λ p. Replays schedule.now p.machine p.history.items) }
    ensures play { IfOk result (λ p. IsPlay form moves.now (reverse order.now) p.history.items) }
{
    let mut book = Book::load(alloc, schedule)?;
    play_in(alloc, &mut book, moves, form, order)?;
    let (machine, history) = book.into_parts();
    Ok(Play { machine, history })
}

fn play_in(
    alloc: Global,
    book: &mut Book<'_>,
    moves: &[Moves],
    form: Form,
    order: &[TxnId],
) -> Result<(), OrderFault>
    requires { book.old.history ≡ [] }
    ensures plan { book.new.plan ≡ book.old.plan }
    ensures play { OnOk result (IsPlay form moves.now (reverse order.now) book.new.history) }
{
    let mut places = first_places(alloc, moves)?;
    for &mover in order {
        move_in(book, moves, form, &mut places, mover)?;
    }
    Ok(())
}

/// `make_move` with the places in a vector.
fn move_in(
    book: &mut Book<'_>,
    moves: &[Moves],
    form: Form,
    places: &mut Vec<Place>,
    mover: TxnId,
) -> Result<(), OrderFault>
    ensures plan { book.new.plan ≡ book.old.plan }
    ensures moved { OnOk result (HasMoved form moves.now mover places.old.items book.old.history places.new.items book.new.history) }
{
    make_move(book, moves, form, places.as_mut_slice(), mover)
}

/// The places of all transactions before their first event.
pub fn first_places(alloc: Global, moves: &[Moves]) -> Result<Vec<Place>, NoMemory>
    ensures { IfOk result (λ places. places.items ≡ replicate (length moves.now) first_place) }
{
    let mut places = Vec::with_capacity(alloc, moves.len())?;
    for _ in 0..moves.len() {
        places.push(Place {
            stage: Stage::Start,
            moves: 0,
            waits: false,
        })?;
    }
    Ok(places)
}

/// The place of a transaction in lists of all transactions.
fn place_of(txn: TxnId) -> Result<usize, OrderFault>
    ensures { IfOk result (λ place. txn ≡ place + 1) }
{
    match txn.number().checked_sub(1) {
        Some(place) => Ok(place as usize),
        None => Err(OrderFault::Mismatch),
    }
}

/// The transaction at a place.
fn txn_at(place: usize) -> Result<TxnId, OrderFault>
    ensures { IfOk result (λ txn. txn ≡ place + 1) }
{
    match (place as u64).checked_add(1) {
        Some(number) => Ok(TxnId::new(number)),
        None => Err(OrderFault::Mismatch),
    }
}

/// Makes a move of a transaction on a book, and everything that the move sets off. `places` has where each transaction
/// is after the book's history, and afterwards where it is then.
pub fn make_move(
    book: &mut Book<'_>,
    moves: &[Moves],
    form: Form,
    places: &mut [Place],
    mover: TxnId,
) -> Result<(), OrderFault>
    ensures plan { book.new.plan ≡ book.old.plan }
    ensures moved { OnOk result (HasMoved form moves.now mover places.old book.old.history places.new book.new.history) }
{
    let mut turn = come(moves, form, book.history(), places, mover)?;
    for _ in 0..u64::MAX {
        match next_event(moves, form, book.history(), places, mover, turn)? {
            None => return Ok(()),
            Some((worker, event)) => {
                let before = book.history().len();
                let (_, reply) = book.attempt(worker, event)?;
                turn = take_reply(moves, form, before, book.history(), places, turn, &reply)?;
            }
        }
    }
    Err(OrderFault::Mismatch)
}

/// One more move of a transaction has come. Answers whose turn it is.
fn come(
    moves: &[Moves],
    form: Form,
    history: &[Entry],
    places: &mut [Place],
    mover: TxnId,
) -> Result<Turn, OrderFault>
    ensures { IfOk result (λ turn. comes form moves.now history.now places.old mover ≡ Some (record { places = places.new; turn = turn })) }
{
    let at = place_of(mover)?;
    let Some(place) = places.get(at) else {
        return Err(OrderFault::Mismatch);
    };
    let Some(count) = place.moves.checked_add(1) else {
        return Err(OrderFault::TooMany);
    };
    let counted = Place {
        stage: place.stage,
        moves: count,
        waits: place.waits,
    };
    places[at] = counted;
    if is_over(counted.stage) {
        if moves.len() <= at {
            return Err(OrderFault::Mismatch);
        }
        return Ok(Turn::Rests);
    }
    send(moves, form, history, places, at)
}

ghost use Rattle.std.specs.Prelude.{Some};

/// The turn of the transaction at a place, if it may go on; otherwise that of the others that wait.
fn send(
    moves: &[Moves],
    form: Form,
    history: &[Entry],
    places: &[Place],
    at: usize,
) -> Result<Turn, OrderFault>
    ensures { IfOk result (λ turn. sends form moves.now history.now places.now (at + 1) ≡ Some (record { places = places.now; turn = turn })) }
{
    let (Some(of_one), Some(place)) = (moves.get(at), places.get(at)) else {
        return Err(OrderFault::Mismatch);
    };
    let txn = txn_at(at)?;
    if place.may_go(of_one, form, txn, history) {
        Ok(Turn::Goes(at))
    } else {
        Ok(asks(places, Some(at), None))
    }
}

/// Who makes which event next; None if it is nobody's turn.
fn next_event(
    moves: &[Moves],
    form: Form,
    history: &[Entry],
    places: &[Place],
    mover: TxnId,
    turn: Turn,
) -> Result<Option<(TxnId, Event)>, OrderFault>
    ensures { IfOk result (λ found. found ≡ next_by form moves.now mover history.now places.now turn) }
{
    match turn {
        Turn::Goes(at) | Turn::Asks(at, _, _) => {
            let (Some(of_one), Some(place)) = (moves.get(at), places.get(at)) else {
                return Err(OrderFault::Mismatch);
            };
            let txn = txn_at(at)?;
            Ok(Some((txn, place.event(of_one, form, txn, history))))
        }
        Turn::Looks => Ok(Some((mover, Event::Detect))),
        Turn::Rests => Ok(None),
    }
}

/// Takes the reply to the next event, which is the last one of the history and comes after this many. Answers whose turn
/// it is then.
fn take_reply(
    moves: &[Moves],
    form: Form,
    before: usize,
    history: &[Entry],
    places: &mut [Place],
    turn: Turn,
    reply: &Reply,
) -> Result<Turn, OrderFault>
    ensures { IfOk result (λ next. after_by form moves.now (take before history.now) history.now places.old turn reply.now ≡ Some (record { places = places.new; turn = next })) }
{
    match turn {
        Turn::Goes(at) => take_own(moves, form, before, history, places, at, turn, reply),
        Turn::Asks(at, but, got_on) => {
            let noted = Turn::Asks(at, but, got_on || !is_wait(reply));
            take_own(moves, form, before, history, places, at, noted, reply)
        }
        Turn::Looks => match reply {
            Reply::Victim(victim, _) => {
                let at = place_of(*victim)?;
                send(moves, form, history, places, at)
            }
            _ => Ok(Turn::Rests),
        },
        Turn::Rests => Err(OrderFault::Mismatch),
    }
}

/// Takes the reply to the event of the transaction at a place, whose turn it is. Answers whose turn it is then.
fn take_own(
    moves: &[Moves],
    form: Form,
    before: usize,
    history: &[Entry],
    places: &mut [Place],
    at: usize,
    turn: Turn,
    reply: &Reply,
) -> Result<Turn, OrderFault>
    ensures { IfOk result (λ next. after_own form moves.now (take before history.now) history.now places.old at turn reply.now ≡ Some (record { places = places.new; turn = next })) }
{
    let (Some(of_one), Some(place)) = (moves.get(at), places.get(at)) else {
        return Err(OrderFault::Mismatch);
    };
    let txn = txn_at(at)?;
    let old = front_of(history, before);
    let Some(later) = place.answered(of_one, form, at, txn, old, reply) else {
        return Err(OrderFault::Mismatch);
    };
    places[at] = later;
    if later.rests(of_one, form, txn, history) {
        Ok(passed(turn, places))
    } else {
        Ok(turn)
    }
}

/// The first entries of a history.
fn front_of(history: &[Entry], count: usize) -> &[Entry]
    ensures { result.now ≡ take count history.now }
{
    match history.get(..count) {
        Some(front) => front,
        None => history,
    }
}

ghost use Rattle.hek_permute.specs.Plays.{after_own};

/// The turn after that of one who goes no further.
fn passed(turn: Turn, places: &[Place]) -> Turn
    ensures { result ≡ passed turn places.now }
{
    match turn {
        Turn::Goes(at) => asks(places, Some(at), None),
        Turn::Asks(at, but, got_on) => {
            if got_on {
                asks_on(places, but, Some(at))
            } else {
                asks(places, but, Some(at))
            }
        }
        Turn::Looks | Turn::Rests => turn,
    }
}

/// The turn in a round in which nobody has got on.
fn asks(places: &[Place], but: Option<usize>, past: Option<usize>) -> Turn
    ensures { result ≡ asks but past places.now }
{
    match first_asked(places, but, past) {
        Some(at) => Turn::Asks(at, but, false),
        None => {
            if all_wait(places) {
                Turn::Looks
            } else {
                Turn::Rests
            }
        }
    }
}

/// The turn in a round in which one has got on: after the last one all that wait are asked once more.
fn asks_on(places: &[Place], but: Option<usize>, past: Option<usize>) -> Turn
    ensures { result ≡ asks_on but past places.now }
{
    match first_asked(places, but, past) {
        Some(at) => Turn::Asks(at, but, true),
        None => asks(places, None, None),
    }
}

/// The first place past one of a transaction that waits, but one.
fn first_asked(places: &[Place], but: Option<usize>, past: Option<usize>) -> Option<usize>
    ensures { result ≡ first_asked but past 0 places.now }
{
    let mut rest = places;
    let mut at = 0;
    while let Some((place, later)) = rest.split_first() {
        if place.waits && is_past(past, at) && !is_it(but, at) {
            return Some(at);
        }
        rest = later;
        at += 1;
    }
    None
}

fn is_past(past: Option<usize>, at: usize) -> bool
    ensures { result ≡ is_past past at }
{
    match past {
        Some(one) => one < at,
        None => true,
    }
}

fn is_it(but: Option<usize>, at: usize) -> bool
    ensures { result ≡ is_it but at }
{
    match but {
        Some(one) => one == at,
        None => false,
    }
}

/// Whether some transactions have begun and not ended, and all of these wait.
fn all_wait(places: &[Place]) -> bool
    ensures { result ≡ all_wait places.now }
{
    some_wait(places) && none_runs_on(places)
}

fn some_wait(places: &[Place]) -> bool
    ensures { result ≡ some_wait places.now }
{
    let mut rest = places;
    while let Some((place, later)) = rest.split_first() {
        if place.waits {
            return true;
        }
        rest = later;
    }
    false
}

fn none_runs_on(places: &[Place]) -> bool
    ensures { result ≡ none_runs_on places.now }
{
    let mut rest = places;
    while let Some((place, later)) = rest.split_first() {
        if !place.waits && is_running(place.stage) {
            return false;
        }
        rest = later;
    }
    true
}

ghost use Rattle.hek_permute.specs.Plays.{is_past, none_runs_on, some_wait};

fn is_running(stage: Stage) -> bool
    ensures { result ≡ is_running stage }
{
    match stage {
        Stage::Start | Stage::Ended => false,
        _ => true,
    }
}

fn is_over(stage: Stage) -> bool
    ensures { result ≡ is_over stage }
{
    match stage {
        Stage::Ended => true,
        _ => false,
    }
}
