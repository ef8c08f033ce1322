//! What the beginnings of a class become by one more move.
ghost use Rattle.std.specs.Prelude.{◌≡◌, ◌+◌, ◌++◌, ◌∷◌, ◌<◌, [], IfOk, MatchOption, OnOk, length, reverse, slice_index};
ghost use Rattle.hek_rules.specs.Checks.{clock_end};
ghost use Rattle.hek_permute.specs.Plays.{HasMoved, Plays};
ghost use Rattle.hek_explore.specs.Counts.{AreAllGrown, AreGrown, IsFewer, IsGrown, IsGrownAt, IsReplayed};
ghost use Rattle.hek_explore.specs.Steps.{AreRuled, LeadsBy};

use crate::class::Class;
use crate::groups::Grouped;
use crate::key::Key;
use hek_permute::{Form, Moves, OrderFault, Place, first_places, make_move};
use hek_rules::TxnId;
use hek_worker::Book;
use std::alloc::Global;
use std::collections::VecDeque;
use std::marker::Model;

/// Twice as many events, and the clock still does not come to its end.
const MOST_EVENTS: u64 = 1 << 60;

/// What a class becomes by one more move: for the transaction at each place the class of the beginnings with its move, or
/// None where it has no move left.
#[derive(Drop)]
pub(crate) struct Grown {
    by_place: VecDeque<Option<Class>>,
}

impl Model for Grown {
    ghost use Rattle.std.specs.Prelude.{List, Option};
    ghost use Rattle.hek_explore.specs.Counts.{Group};

    ghost Value = { List (Option Group) };

    ghost view = { λ g. g.by_place.items };
}

impl Grown {
    /// Nothing yet, with room for so many places.
    fn with_room(alloc: Global, places: usize) -> Result<Grown, OrderFault>
        ensures { IfOk result (λ grown. grown ≡ []) }
    {
        Ok(Grown {
            by_place: VecDeque::with_capacity(alloc, places)?,
        })
    }

    /// Adds what the move of the transaction at the next place leads to.
    fn push(&mut self, found: Option<Class>) -> Result<(), OrderFault>
        ensures { OnOk result (self.new ≡ self.old ++ found ∷ []) }
    {
        self.by_place.push_back(found)?;
        Ok(())
    }

    /// Takes out what the move of the transaction at the first place leads to.
    pub(crate) fn take_first(&mut self) -> Option<Option<Class>>
        ensures { MatchOption result (self.old ≡ []) (λ found. self.old ≡ found ∷ self.new) }
    {
        self.by_place.pop_front()
    }
}

/// What each of these classes becomes by one more move of each transaction.
pub(crate) fn grow_classes(
    alloc: Global,
    schedule: &Grouped<'_>,
    moves: &[Moves],
    form: Form,
    classes: &[Class],
) -> Result<VecDeque<Grown>, OrderFault>
    requires { AreRuled schedule.now moves.now }
    ensures { IfOk result (λ all. AreAllGrown schedule.now form moves.now classes.now all.items) }
{
    let mut all = VecDeque::with_capacity(alloc, classes.len())?;
    let mut rest = classes;
    while let Some((class, later)) = rest.split_first() {
        all.push_back(grow_class(alloc, schedule, moves, form, class)?)?;
        rest = later;
    }
    Ok(all)
}

/// What a class becomes by one more move of each transaction.
fn grow_class(
    alloc: Global,
    schedule: &Grouped<'_>,
    moves: &[Moves],
    form: Form,
    class: &Class,
) -> Result<Grown, OrderFault>
    requires { AreRuled schedule.now moves.now }
    ensures { IfOk result (AreGrown schedule.now form moves.now class.now) }
{
    let (book, places) = replay(alloc, schedule, moves, form, class)?;
    let count = class.left().len();
    let mut grown = Grown::with_room(alloc, count)?;
    for place in 0..count {
        let found = grow_at(
            alloc,
            schedule,
            moves,
            form,
            class,
            &book,
            places.as_slice(),
            place,
        )?;
        grown.push(found)?;
    }
    Ok(grown)
}

/// The class of the beginnings of this one with one more move of the transaction at a place, if it has moves left. The book
/// and the places are those of the play of the class.
fn grow_at(
    alloc: Global,
    schedule: &Grouped<'_>,
    moves: &[Moves],
    form: Form,
    class: &Class,
    book: &Book<'_>,
    places: &[Place],
    place: usize,
) -> Result<Option<Class>, OrderFault>
    requires are { AreRuled schedule.now moves.now }
    requires played { IsReplayed schedule.now form moves.now class.now book.now.plan places.now book.now.history }
    requires place_in { place < length class.now.left }
    ensures { IfOk result (IsGrownAt schedule.now form moves.now class.now place) }
{
    if class.left()[place] == 0 {
        return Ok(None);
    }
    let grown = grow(alloc, schedule, moves, form, class, book, places, place)?;
    Ok(Some(grown))
}

/// The class of the beginnings of this one with one more move of the transaction at a place.
fn grow(
    alloc: Global,
    schedule: &Grouped<'_>,
    moves: &[Moves],
    form: Form,
    class: &Class,
    book: &Book<'_>,
    places: &[Place],
    place: usize,
) -> Result<Class, OrderFault>
    requires are { AreRuled schedule.now moves.now }
    requires played { IsReplayed schedule.now form moves.now class.now book.now.plan places.now book.now.history }
    requires place_in { place < length class.now.left }
    requires has_moves { 0 < slice_index class.now.left place }
    ensures { IfOk result (IsGrown schedule.now form moves.now class.now place) }
{
    let Some(number) = (place as u64).checked_add(1) else {
        return Err(OrderFault::Mismatch);
    };
    let mover = TxnId::new(number);
    let (key, events) = lead(alloc, schedule, moves, form, class, book, places, mover)?;
    let longest = longer(class.longest(), events)?;
    let mut first = Vec::from_slice(alloc, class.first())?;
    first.push(mover)?;
    let left = one_fewer(alloc, class.left(), place)?;
    Ok(Class {
        first,
        orders: class.orders(),
        left,
        key,
        longest,
    })
}

/// The same numbers, one of them less by 1.
fn one_fewer(alloc: Global, left: &[u64], place: usize) -> Result<Vec<u64>, OrderFault>
    requires place_in { place < length left.now }
    requires has_moves { 0 < slice_index left.now place }
    ensures { IfOk result (λ fewer. IsFewer left.now place fewer.items) }
{
    let mut fewer = Vec::from_slice(alloc, left)?;
    fewer[place] -= 1;
    Ok(fewer)
}

/// The key to which a move leads from the key of a class, and how many events the play has then.
fn lead(
    alloc: Global,
    schedule: &Grouped<'_>,
    moves: &[Moves],
    form: Form,
    class: &Class,
    book: &Book<'_>,
    places: &[Place],
    mover: TxnId,
) -> Result<(Key, usize), OrderFault>
    requires are { AreRuled schedule.now moves.now }
    requires played { IsReplayed schedule.now form moves.now class.now book.now.plan places.now book.now.history }
    ensures { IfOk result (λ r. LeadsBy schedule.now form moves.now mover class.now.key r.0 r.1) }
{
    let mut book = book.copy()?;
    let mut places = Vec::from_slice(alloc, places)?;
    move_in(&mut book, moves, form, &mut places, mover)?;
    let key = Key::of(alloc, schedule.groups(), &book, places.as_slice())?;
    let (_machine, history) = book.into_parts();
    Ok((key, history.len()))
}

/// A bound on the events of a play that goes on like one with so many.
fn longer(longest: u64, events: usize) -> Result<u64, OrderFault>
    ensures { IfOk result (λ n. (n ≡ longest + events) × (n < clock_end)) }
{
    let events = events as u64;
    if longest >= MOST_EVENTS || events >= MOST_EVENTS {
        return Err(OrderFault::TooMany);
    }
    Ok(longest + events)
}

/// The play of a class's first beginning: the book, and where each transaction is. It has the key of the class.
pub(crate) fn replay<'a>(
    alloc: Global,
    schedule: &Grouped<'a>,
    moves: &[Moves],
    form: Form,
    class: &Class,
) -> Result<(Book<'a>, Vec<Place>), OrderFault>
    requires { AreRuled schedule.now moves.now }
    ensures { IfOk result (λ r. IsReplayed schedule.now form moves.now class.now r.0.plan r.1.items r.0.history) }
{
    let (book, places) = play_from(alloc, schedule, moves, form, class.first())?;
    let key = Key::of(alloc, schedule.groups(), &book, places.as_slice())?;
    if !key.same(class.key()) {
        return Err(OrderFault::Mismatch);
    }
    Ok((book, places))
}

/// The play of these moves.
pub(crate) fn play_from<'a>(
    alloc: Global,
    schedule: &Grouped<'a>,
    moves: &[Moves],
    form: Form,
    order: &[TxnId],
) -> Result<(Book<'a>, Vec<Place>), OrderFault>
    ensures plan { IfOk result (λ r. r.0.plan ≡ schedule.now) }
    ensures come { IfOk result (λ r. Plays form moves.now (reverse order.now) r.1.items r.0.history) }
{
    let mut book = Book::load(alloc, schedule.schedule())?;
    let mut places = first_places(alloc, moves)?;
    for &mover in order {
        move_in(&mut book, moves, form, &mut places, mover)?;
    }
    Ok((book, places))
}

/// `make_move` with the places in a vector.
fn move_in(
    book: &mut Book<'_>,
    moves: &[Moves],
    form: Form,
    places: &mut Vec<Place>,
    mover: TxnId,
) -> Result<(), OrderFault>
    ensures plan { book.new.plan ≡ book.old.plan }
    ensures moved { OnOk result (HasMoved form moves.now mover places.old.items book.old.history places.new.items book.new.history) }
{
    make_move(book, moves, form, places.as_mut_slice(), mover)
}
