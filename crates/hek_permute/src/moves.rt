//! The moves of transactions, and the orders in which they can come.
ghost use Rattle.std.specs.Prelude.{◌≡◌, ◌+◌, ◌<◌, ◌^◌, [], ◌∷◌, ◌++◌, false, drop, filter, length, replicate, slice_get, IfOk, IsTrue, OnOk, Some};
ghost use Rattle.hek_program.specs.declared.rule.Act.TheVariants.{Skips};
ghost use Rattle.hek_permute.specs.Moves.{AreMoves, counts_of, first_order_from, first_rule, has_fail, has_some, is_conditional, is_move, later_rules, move_count, other_moves, with_rules, work_in};
ghost use Rattle.hek_permute.specs.Plays.{ahead, shown_to, skips};

use crate::seen::Seen;
use hek_program::{Act, Comparison, Rule, act_of};
use hek_rules::{Event, NoMemory, Schedule, TxnId};
use hek_worker::{Entry, is_work};
use std::alloc::Global;
use std::marker::Model;

/// How a transaction is cut into moves. Each read or write is one.
#[derive(Clone, Copy, Debug, PartialEq, Eq)]
pub enum Form {
    /// `begin` belongs to the first move, and one more goes from `finish` to `end`.
    Whole,
    /// `begin` belongs to the first move, and two more are `finish` with `precommit`, and the rest.
    Split,
    /// Moves of their own are `begin`, `finish`, `precommit`, and the rest.
    Event,
}

impl Form {
    /// The form with this name: `move`, `split` or `event`.
    pub fn named(word: &str) -> Option<Form> {
        match word {
            "move" => Some(Form::Whole),
            "split" => Some(Form::Split),
            "event" => Some(Form::Event),
            _ => None,
        }
    }

    /// How many moves a transaction has beside its reads and writes.
    pub fn other_moves(self) -> usize
        ensures { result ≡ other_moves self }
    {
        match self {
            Form::Whole => 1,
            Form::Split => 2,
            Form::Event => 4,
        }
    }
}

/// A step of a program: its event, and the rule by which it is computed.
#[derive(Drop, Debug)]
pub struct Move {
    pub event: Event,
    pub rule: Rule,
}

/// What a transaction does: its reads, its writes and what fails under a condition, in order, and whether it fails in the
/// end.
#[derive(Drop, Debug)]
pub struct Moves {
    steps: Vec<Move>,
    buckets: u64,
    fails: bool,
}

impl Model for Moves {
    ghost use Rattle.std.specs.Prelude.{◌<◌};
    ghost use Rattle.hek_permute.specs.Moves.{Work};

    ghost Value = { Work };

    ghost view = { λ m. record { steps = m.steps.items; buckets = m.buckets; fails = m.fails } };

    ghost invariant = { λ m. 0 < m.buckets };
}

impl Moves {
    /// The reads, the writes and what fails under a condition, in order.
    pub fn steps(&self) -> &[Move]
        ensures { result.now ≡ self.now.steps }
    {
        self.steps.as_slice()
    }

    /// Whether the transaction ends in `fail`.
    pub fn fails(&self) -> bool
        ensures { result ≡ self.now.fails }
    {
        self.fails
    }

    /// How many buckets there are.
    fn buckets(&self) -> u64
        ensures value { result ≡ self.now.buckets }
        ensures some { 0 < result }
    {
        self.buckets
    }

    /// What the step at a place does by what its transaction has seen in a history; None past the last step.
    pub(crate) fn act(&self, place: usize, txn: TxnId, history: &[Entry]) -> Option<Act>
        ensures { result ≡ slice_get (shown_to self.now txn history.now).acts place }
    {
        match self.steps().get(place) {
            Some(step) => Some(act_of(
                step.event,
                &step.rule,
                &Seen {
                    buckets: self.buckets(),
                    txn,
                    history,
                },
            )),
            None => None,
        }
    }

    /// The first place from one on whose step is not skipped.
    pub fn ahead(&self, place: usize, txn: TxnId, history: &[Entry]) -> usize
        ensures { result ≡ ahead (shown_to self.now txn history.now).acts place }
    {
        let number = txn.number();
        let mut at = place;
        while self.is_skipped(at, number, history) {
            at += 1;
        }
        at
    }

    /// Whether there is a step at a place, and it is skipped by the transaction with this number.
    fn is_skipped(&self, place: usize, number: u64, history: &[Entry]) -> bool
        ensures skips { IsTrue result → slice_get (shown_to self.now number history.now).acts place ≡ Some Skips }
        ensures goes_on { result ≡ false → skips (drop place (shown_to self.now number history.now).acts) ≡ 0 }
        ensures within { IsTrue result → place + 1 < 2 ^ 64 }
    {
        let most = self.steps().len();
        match self.act(place, TxnId::new(number), history) {
            Some(Act::Skips) => place < most,
            Some(Act::Makes(_)) => false,
            Some(Act::Fails) => false,
            None => false,
        }
    }
}

/// The moves of each declared transaction of a schedule, in order of their IDs. The first rule is that of the first
/// step; steps without a rule are their events.
pub fn moves_of(alloc: Global, schedule: &Schedule, rules: &[Rule]) -> Result<Vec<Moves>, NoMemory>
    ensures { IfOk result (λ moves. AreMoves schedule.now rules.now moves.items) }
{
    let mut moves = Vec::with_capacity(alloc, schedule.txn_count())?;
    for place in 0..schedule.txn_count() {
        let txn = TxnId::new(place as u64 + 1);
        moves.push(moves_in(alloc, schedule, rules, txn)?)?;
    }
    Ok(moves)
}

/// The moves of one transaction.
fn moves_in(
    alloc: Global,
    schedule: &Schedule,
    rules: &[Rule],
    txn: TxnId,
) -> Result<Moves, NoMemory>
    ensures { IfOk result (λ moves. moves ≡ work_in schedule.now rules.now txn) }
{
    let fails = has_fail(txn, schedule.steps(), rules);
    let steps = own_steps(alloc, txn, schedule.steps(), rules)?;
    Ok(Moves {
        steps,
        buckets: schedule.buckets(),
        fails,
    })
}

/// The rules behind the first one.
fn later_rules(rules: &[Rule]) -> &[Rule]
    ensures { result.now ≡ later_rules rules.now }
{
    match rules.split_first() {
        Some((_, later)) => later,
        None => rules,
    }
}

/// Whether the first rule has a condition.
fn is_conditional(rules: &[Rule]) -> bool
    ensures { result ≡ is_conditional (first_rule rules.now) }
{
    match rules.split_first() {
        Some((rule, _)) => has_some(rule.when.comparisons()),
        None => false,
    }
}

fn has_some(comparisons: &[Comparison]) -> bool
    ensures { result ≡ has_some comparisons.now }
{
    match comparisons.split_first() {
        Some(_) => true,
        None => false,
    }
}

/// A copy of the first rule; without rules that of a step that is its event.
fn first_rule(alloc: Global, rules: &[Rule]) -> Result<Rule, NoMemory>
    ensures { IfOk result (λ rule. rule ≡ first_rule rules.now) }
{
    match rules.split_first() {
        Some((rule, _)) => rule.copy(alloc),
        None => Ok(Rule::plain(alloc)),
    }
}

/// Whether a step with the first of these rules is a move of a transaction.
fn is_move(txn: TxnId, event: &Event, rules: &[Rule]) -> bool
    ensures { result ≡ is_move txn (record { event = event.now; rule = first_rule rules.now }) }
{
    is_work(txn, *event) || (is_fail(txn, *event) && is_conditional(rules))
}

/// The moves of one transaction among these steps.
fn own_steps(
    alloc: Global,
    txn: TxnId,
    steps: &[Event],
    rules: &[Rule],
) -> Result<Vec<Move>, NoMemory>
    ensures { IfOk result (λ own. own.items ≡ filter (is_move txn) (with_rules steps.now rules.now)) }
{
    let mut own = Vec::new(alloc);
    let mut rest = steps;
    let mut rules_rest = rules;
    while let Some((step, later)) = rest.split_first() {
        put_move(alloc, txn, step, rules_rest, &mut own)?;
        rest = later;
        rules_rest = later_rules(rules_rest);
    }
    Ok(own)
}

/// Adds a step with the first of these rules, if it is a move of the transaction.
fn put_move(
    alloc: Global,
    txn: TxnId,
    event: &Event,
    rules: &[Rule],
    own: &mut Vec<Move>,
) -> Result<(), NoMemory>
    ensures { OnOk result (own.new.items ≡ own.old.items ++ filter (is_move txn) (record { event = event.now; rule = first_rule rules.now } ∷ [])) }
{
    if !is_move(txn, event, rules) {
        return Ok(());
    }
    let rule = first_rule(alloc, rules)?;
    own.push(Move {
        event: *event,
        rule,
    })?;
    Ok(())
}

/// Whether a transaction has a step `fail` without a condition.
fn has_fail(txn: TxnId, steps: &[Event], rules: &[Rule]) -> bool
    ensures { result ≡ has_fail txn (with_rules steps.now rules.now) }
{
    let mut rest = steps;
    let mut rules_rest = rules;
    while let Some((step, later)) = rest.split_first() {
        if is_fail(txn, *step) && !is_conditional(rules_rest) {
            return true;
        }
        rest = later;
        rules_rest = later_rules(rules_rest);
    }
    false
}

ghost use Rattle.hek_permute.specs.Moves.{is_fail_of};

fn is_fail(txn: TxnId, event: Event) -> bool
    ensures { result ≡ is_fail_of txn event }
{
    match event {
        Event::Fail(t) => t == txn,
        _ => false,
    }
}

/// The first order: all moves of the first transaction, then those of the second, and so on.
pub fn first_order(alloc: Global, moves: &[Moves], form: Form) -> Result<Vec<TxnId>, NoMemory>
    ensures { IfOk result (λ order. order.items ≡ first_order_from 1 (counts_of form moves.now)) }
{
    let mut order = Vec::new(alloc);
    let mut rest = moves;
    let mut number = 1;
    while let Some((first, later)) = rest.split_first() {
        let count = move_count(first, form);
        push_times(&mut order, TxnId::new(number), count)?;
        rest = later;
        number += 1;
    }
    Ok(order)
}

fn push_times(order: &mut Vec<TxnId>, txn: TxnId, count: usize) -> Result<(), NoMemory>
    ensures { OnOk result (order.new.items ≡ order.old.items ++ replicate count txn) }
{
    for _ in 0..count {
        order.push(txn)?;
    }
    Ok(())
}

/// How many moves a transaction has.
pub fn move_count(of_one: &Moves, form: Form) -> usize
    ensures { result ≡ move_count form of_one.now }
{
    of_one.steps().len() + form.other_moves()
}
