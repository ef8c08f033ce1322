//! Programs.
ghost use Rattle.std.specs.Prelude.{◌≡◌, [], length, IfOk, OnOk};
ghost use Rattle.hek_program.specs.Scripts.{first_broken, plain_script, act_at};
ghost use Rattle.hek_program.specs.Told.{at_end};

use crate::always::{Always, AtEnd, first_broken};
use crate::lookup::Lookup;
use crate::rule::{Act, Rule, act_of};
use hek_rules::{Event, Schedule};
use std::alloc::Global;
use std::marker::Model;

/// A schedule whose steps are computed as their transactions go on, and what is to hold at the end of each order.
#[derive(Drop)]
pub struct Program {
    schedule: Schedule,
    rules: Vec<Rule>,
    always: Vec<Always>,
}

impl Model for Program {
    ghost use Rattle.hek_program.specs.Scripts.{Script};

    ghost Value = { Script };

    ghost view = { λ p. record { plan = p.schedule; rules = p.rules.items; always = p.always.items } };
}

impl Program {
    /// A program with these parts. The first rule is that of the first step; steps without a rule are their events.
    pub fn new(schedule: Schedule, rules: Vec<Rule>, always: Vec<Always>) -> Program
        ensures { result ≡ record { plan = schedule; rules = rules.items; always = always.items } }
    {
        Program {
            schedule,
            rules,
            always,
        }
    }

    /// The program of a schedule: each step is its event.
    pub fn plain(alloc: Global, schedule: Schedule) -> Program
        ensures { result ≡ plain_script schedule }
    {
        Program {
            schedule,
            rules: Vec::new(alloc),
            always: Vec::new(alloc),
        }
    }

    /// The schedule. Values that are computed are 0 in it.
    pub fn schedule(&self) -> &Schedule
        ensures { result.now ≡ self.now.plan }
    {
        &self.schedule
    }

    /// The rules of the steps, in order. Steps that have none are their events.
    pub fn rules(&self) -> &[Rule]
        ensures { result.now ≡ self.now.rules }
    {
        self.rules.as_slice()
    }

    /// What is to hold at the end, in order.
    pub fn always(&self) -> &[Always]
        ensures { result.now ≡ self.now.always }
    {
        self.always.as_slice()
    }

    /// What the step at a place does for a transaction that sees these values; None if there is no such step.
    pub fn act_at<L: Lookup>(&self, place: usize, lookup: &L) -> Option<Act>
        ensures { result ≡ act_at self.now place (L.value_of lookup.now) }
    {
        let steps = self.schedule.steps();
        let step = *steps.get(place)?;
        match self.rules.get(place) {
            Some(rule) => Some(act_of(step, rule, lookup)),
            None => Some(plain_act(step)),
        }
    }

    /// The line of the first invariant that does not hold at the end of an order.
    pub fn broken_by(&self, end: &AtEnd<'_>) -> Option<u64>
        ensures { result ≡ first_broken (at_end end.now.rows.now end.now.committed.now) self.now.always }
    {
        first_broken(self.always.as_slice(), end)
    }
}

/// What a step without a rule does.
fn plain_act(step: Event) -> Act
    ensures { result ≡ plain_act step }
{
    match step {
        Event::Fail(_) => Act::Fails,
        _ => Act::Makes(step),
    }
}

ghost use Rattle.hek_program.specs.Acts.{plain_act};
