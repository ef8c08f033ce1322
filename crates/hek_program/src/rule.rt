//! How a step of a program is computed.
ghost use Rattle.std.specs.Prelude.{◌≡◌, IfOk};
ghost use Rattle.hek_program.specs.Acts.{made, plain_rule, act_of, with_value};

use crate::condition::Condition;
use crate::lookup::Lookup;
use crate::term::Amount;
use hek_rules::{Event, NoMemory};
use std::alloc::Global;

/// How a step is computed from what its transaction has seen: the value that it writes, if it is a write with a term;
/// and when it is done.
#[derive(Drop, Debug)]
pub struct Rule {
    pub amount: Amount,
    pub when: Condition,
}

/// What a step does when its turn comes.
#[derive(Clone, Copy, Debug, PartialEq, Eq)]
pub enum Act {
    Makes(Event),
    /// Nothing, since its condition doesn't hold.
    Skips,
    /// The transaction fails.
    Fails,
}

impl Rule {
    /// The rule of a step that is its event, whatever was seen.
    pub fn plain(alloc: Global) -> Rule
        ensures { result ≡ plain_rule }
    {
        Rule {
            amount: Amount::none(alloc),
            when: Condition::none(alloc),
        }
    }

    /// An equal rule, or NoMemory.
    pub fn copy(&self, alloc: Global) -> Result<Rule, NoMemory>
        ensures { IfOk result (λ rule. rule ≡ self.now) }
    {
        Ok(Rule {
            amount: self.amount.copy(alloc)?,
            when: self.when.copy(alloc)?,
        })
    }
}

/// The event with another value, if it writes one.
fn with_value(value: u64, event: Event) -> Event
    ensures { result ≡ with_value value event }
{
    match event {
        Event::Insert(txn, key, _) => Event::Insert(txn, key, value),
        Event::Update(txn, key, _) => Event::Update(txn, key, value),
        other => other,
    }
}

/// What a step does whose condition holds.
fn made<L: Lookup>(event: Event, amount: &Amount, lookup: &L) -> Act
    ensures { result ≡ made (L.value_of lookup.now) event amount.now }
{
    if let Event::Fail(_) = event {
        return Act::Fails;
    }
    if amount.products().is_empty() {
        return Act::Makes(event);
    }
    match amount.value(lookup) {
        Some(value) => Act::Makes(with_value(value, event)),
        None => Act::Fails,
    }
}

/// What a step does for a transaction that sees these values. Without a value that it could write, as below zero, from
/// 2^64 on, or with a key at which there is nothing, the transaction fails. A comparison with such a key doesn't hold.
pub fn act_of<L: Lookup>(event: Event, rule: &Rule, lookup: &L) -> Act
    ensures { result ≡ act_of (L.value_of lookup.now) event rule.now }
{
    if rule.when.holds(lookup) {
        made(event, &rule.amount, lookup)
    } else {
        Act::Skips
    }
}
