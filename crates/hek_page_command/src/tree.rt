//! The tree of all orders of a schedule's moves: each node is a prefix of orders, played. Where nodes are states, a move
//! can also lead to a node of another branch.
ghost use Rattle.std.specs.Prelude.{IfErr};
ghost use Rattle.hek_page_command.specs.Explorers.{IsExploreStop};

use crate::played::{OrderStory, order_story};
use crate::prefixes::{Prefix, order_of};
use crate::states::{Join, Nodes};
use crate::step_text::StepText;
use crate::story::{StepRange, Story, story_of};
use hek_permute::{Form, Moves, OrderFault, Outcome};
use hek_permute_command::Given;
use hek_report::HekFault;
use hek_rules::{NoMemory, Schedule, TxnId};
use indexmap::IndexSet;
use std::alloc::Global;

/// A tree of orders: its nodes in the order of the prefixes, and what they name by place.
#[derive(Drop)]
pub(crate) struct Tree {
    /// The lines of the state before the first move.
    pub opening: Vec<u8>,
    pub nodes: Vec<Node>,
    pub outcomes: Vec<Outcome>,
    pub steps: IndexSet<StepPlaces>,
    pub texts: IndexSet<Vec<u8>>,
}

/// A node: the prefix, the steps that its last move makes, by their places, the place of its outcome if the order is
/// whole, for each outcome how many orders that begin so have it, and the moves that lead to nodes of other branches.
#[derive(Drop)]
pub(crate) struct Node {
    pub parent: usize,
    pub who: TxnId,
    pub steps: Vec<usize>,
    pub outcome: Option<usize>,
    pub counts: Vec<u64>,
    pub joins: Vec<Join>,
    /// How many events the play of the prefix has.
    events: usize,
}

/// A step by the places of its texts.
#[derive(Clone, Copy, PartialEq, Eq, Hash)]
pub(crate) struct StepPlaces {
    pub line: usize,
    pub changed: usize,
    pub gone: usize,
    pub why: usize,
    pub sees: usize,
    pub waits: Option<usize>,
    pub ends: usize,
    pub rule: usize,
    pub sentence: usize,
    pub definition: usize,
    pub comes: usize,
}

/// The tree of these nodes.
pub(crate) fn tree_of<'a>(
    alloc: Global,
    given: &Given<'_>,
    moves: &[Moves],
    form: Form,
    nodes: &Nodes,
) -> Result<Tree, HekFault<'a>>
    ensures stops { IfErr result IsExploreStop }
{
    let mut tree = Tree {
        opening: opening_of(alloc, given.schedule)?,
        nodes: Vec::new(alloc),
        outcomes: Vec::new(alloc),
        steps: IndexSet::new(alloc),
        texts: IndexSet::new(alloc),
    };
    tree.grow(alloc, given, moves, form, nodes.prefixes.as_slice())?;
    tree.add_joins(nodes.joins.as_slice())?;
    tree.add_counts(alloc)?;
    Ok(tree)
}

fn opening_of(alloc: Global, schedule: &Schedule) -> Result<Vec<u8>, NoMemory> {
    let start = story_of(alloc, schedule, StepRange { done: 0, last: 0 })?;
    Ok(Vec::from_slice(alloc, start.opening.lines.as_slice())?)
}

/// Plays the prefix at a place. The first `done` events are those of its parent.
fn played_at<'a>(
    alloc: Global,
    given: &Given<'_>,
    moves: &[Moves],
    form: Form,
    prefixes: &[Prefix],
    place: usize,
    done: usize,
) -> Result<OrderStory, HekFault<'a>>
    ensures stops { IfErr result IsExploreStop }
{
    let order = order_of(alloc, prefixes, place)?;
    match order_story(alloc, given, moves, form, order.as_slice(), done) {
        Ok(played) => Ok(played),
        Err(fault) => Err(fault_of(fault)),
    }
}

/// The fault of an order as that of a command.
pub(crate) fn fault_of<'a>(fault: OrderFault) -> HekFault<'a>
    ensures stops { IsExploreStop result }
{
    match fault {
        OrderFault::NoMemory | OrderFault::Stopped => HekFault::NoMemory,
        OrderFault::Mismatch | OrderFault::TooMany | OrderFault::TooLong => HekFault::Mismatch(0),
    }
}

impl Tree {
    /// Plays each prefix, and adds its node.
    fn grow<'a>(
        &mut self,
        alloc: Global,
        given: &Given<'_>,
        moves: &[Moves],
        form: Form,
        prefixes: &[Prefix],
    ) -> Result<(), HekFault<'a>>
        ensures stops { IfErr result IsExploreStop }
    {
        for place in 0..prefixes.len() {
            let done = self.events_of(prefixes[place].parent);
            let played = played_at(alloc, given, moves, form, prefixes, place, done)?;
            self.add_node(alloc, prefixes[place], played)?;
        }
        Ok(())
    }

    /// Adds the node of a prefix that was played: its steps are those after the play of its parent.
    fn add_node(
        &mut self,
        alloc: Global,
        prefix: Prefix,
        played: OrderStory,
    ) -> Result<(), NoMemory> {
        let OrderStory {
            events,
            story,
            outcome,
        } = played;
        let outcome = self.add_outcome(outcome)?;
        let node = Node {
            parent: prefix.parent,
            who: prefix.who,
            steps: self.add_steps(alloc, &story)?,
            outcome,
            counts: Vec::new(alloc),
            joins: Vec::new(alloc),
            events: events.len(),
        };
        self.nodes.push(node)?;
        Ok(())
    }

    /// How many events the play of the node at a place has; none before the first node.
    fn events_of(&self, place: usize) -> usize {
        match self.nodes.get(place) {
            Some(node) => node.events,
            None => 0,
        }
    }

    /// Adds the steps of a story, and answers their places.
    fn add_steps(&mut self, alloc: Global, story: &Story) -> Result<Vec<usize>, NoMemory> {
        let mut places = Vec::new(alloc);
        let mut rest = story.trace.as_slice();
        for step in &story.steps {
            let (line, after) = line_of(rest);
            rest = after;
            places.push(self.add_step(alloc, line, step)?)?;
        }
        Ok(places)
    }

    fn add_step(&mut self, alloc: Global, line: &[u8], step: &StepText) -> Result<usize, NoMemory> {
        let waits = match &step.waits {
            Some(waits) => Some(self.add_text(alloc, waits.as_slice())?),
            None => None,
        };
        let places = StepPlaces {
            line: self.add_text(alloc, line)?,
            changed: self.add_text(alloc, step.changed.as_slice())?,
            gone: self.add_text(alloc, step.gone.as_slice())?,
            why: self.add_text(alloc, step.why.as_slice())?,
            sees: self.add_text(alloc, step.sees.as_slice())?,
            waits,
            ends: self.add_text(alloc, step.ends.as_slice())?,
            rule: self.add_text(alloc, step.rule.as_bytes())?,
            sentence: self.add_text(alloc, step.sentence.as_bytes())?,
            definition: self.add_text(alloc, step.definition.as_bytes())?,
            comes: self.add_text(alloc, step.comes.as_bytes())?,
        };
        let (place, _) = self.steps.insert_full(places)?;
        Ok(place)
    }

    fn add_text(&mut self, alloc: Global, text: &[u8]) -> Result<usize, NoMemory> {
        let (place, _) = self.texts.insert_full(Vec::from_slice(alloc, text)?)?;
        Ok(place)
    }

    /// The place of an outcome, which is added where no earlier one is the same.
    fn add_outcome(&mut self, outcome: Option<Outcome>) -> Result<Option<usize>, NoMemory> {
        let Some(outcome) = outcome else {
            return Ok(None);
        };
        for (place, known) in self.outcomes.iter().enumerate() {
            if known.same(&outcome) {
                return Ok(Some(place));
            }
        }
        let place = self.outcomes.len();
        self.outcomes.push(outcome)?;
        Ok(Some(place))
    }

    /// Adds the moves that lead to nodes of other branches.
    fn add_joins(&mut self, joins: &[Join]) -> Result<(), NoMemory> {
        for join in joins {
            if let Some(node) = self.nodes.get_mut(join.from) {
                node.joins.push(*join)?;
            }
        }
        Ok(())
    }

    /// Counts the outcomes of each node: its own, and those of the nodes to which its moves lead, which come after it.
    fn add_counts(&mut self, alloc: Global) -> Result<(), NoMemory> {
        let outcomes = self.outcomes.len();
        for node in self.nodes.as_mut_slice() {
            for place in 0..outcomes {
                let own = u64::from(node.outcome == Some(place));
                node.counts.push(own)?;
            }
        }
        let count = self.nodes.len();
        for back in 0..count {
            self.add_joined(alloc, count - 1 - back)?;
            self.add_to_parent(alloc, count - 1 - back)?;
        }
        Ok(())
    }

    /// Adds to the counts of a node those of the nodes of other branches to which its moves lead.
    fn add_joined(&mut self, alloc: Global, place: usize) -> Result<(), NoMemory> {
        let Some(node) = self.nodes.get(place) else {
            return Ok(());
        };
        let joins = Vec::from_slice(alloc, node.joins.as_slice())?;
        for join in joins.as_slice() {
            self.add_to(alloc, place, join.to)?;
        }
        Ok(())
    }

    /// Adds the counts of a node to those of its parent, if it has one.
    fn add_to_parent(&mut self, alloc: Global, place: usize) -> Result<(), NoMemory> {
        let Some(node) = self.nodes.get(place) else {
            return Ok(());
        };
        let parent = node.parent;
        if place == 0 {
            return Ok(());
        }
        self.add_to(alloc, parent, place)
    }

    /// Adds the counts of the node at a place to those of another.
    fn add_to(&mut self, alloc: Global, other: usize, place: usize) -> Result<(), NoMemory> {
        let Some(node) = self.nodes.get(place) else {
            return Ok(());
        };
        let counts = Vec::from_slice(alloc, node.counts.as_slice())?;
        if let Some(node) = self.nodes.get_mut(other) {
            add_all(node.counts.as_mut_slice(), counts.as_slice());
        }
        Ok(())
    }
}

fn add_all(counts: &mut [u64], more: &[u64]) {
    for place in 0..counts.len() {
        if let (Some(count), Some(own)) = (counts.get_mut(place), more.get(place)) {
            *count = count.saturating_add(*own);
        }
    }
}

/// The first line of a trace without its number and its end, and the lines after it.
fn line_of(trace: &[u8]) -> (&[u8], &[u8]) {
    let (line, rest) = split_at(trace, b'\n');
    let (_, event) = split_at(line, b' ');
    (event, rest)
}

/// What is before the first byte of a kind, and what is after it.
fn split_at(text: &[u8], byte: u8) -> (&[u8], &[u8]) {
    for place in 0..text.len() {
        if text[place] == byte {
            let (front, back) = text.split_at(place);
            return (front, &back[1..]);
        }
    }
    (text, &[])
}
