//! The play of an order, or of the first moves of one, as a page shows it.
ghost use Rattle.std.specs.Prelude.{◌≡◌, IfOk, None, length, map};
ghost use Rattle.hek_page_command.specs.Explorers.{IsOrderStory};
ghost use Rattle.hek_page_command.specs.Tellings.{IsStory};
ghost use Rattle.hek_permute.specs.Leveled.{leveled};
ghost use Rattle.hek_worker.specs.History.{Replays};

use crate::prefixes::is_whole;
use crate::story::{StepRange, Story, story_of};
use hek_permute::{Form, Moves, OrderFault, Outcome, Play, outcome_of, play_order, schedule_with};
use hek_permute_command::Given;
use hek_rules::{Event, NoMemory, Schedule, TxnId};
use std::alloc::Global;

/// The events of a play, the story of those that a page shows, and the outcome if the order is whole.
#[derive(Drop)]
pub struct OrderStory {
    pub events: Vec<Event>,
    pub story: Story,
    pub outcome: Option<Outcome>,
}

/// The play of an order, or of the first moves of one: its events, and the story of those after the first `done` ones. `moves`
/// are those of what is given.
pub fn order_story(
    alloc: Global,
    given: &Given<'_>,
    moves: &[Moves],
    form: Form,
    order: &[TxnId],
    done: usize,
) -> Result<OrderStory, OrderFault>
    ensures { IfOk result (λ told. IsOrderStory given.now.schedule.now form moves.now order.now done told.events.items told.story.steps.items) }
{
    let schedule = given.schedule;
    let play = play_order(alloc, schedule, moves, form, order)?;
    let events = events_of(alloc, &play)?;
    let outcome = outcome_if_whole(alloc, given, moves, form, order, play)?;
    let story = story_of_events(alloc, schedule, events.as_slice(), done)?;
    Ok(OrderStory {
        events,
        story,
        outcome,
    })
}

fn events_of(alloc: Global, play: &Play) -> Result<Vec<Event>, NoMemory>
    ensures { IfOk result (λ events. events.items ≡ map (λ entry. entry.event) play.now.history.items) }
{
    Ok(play.history.iter().map(|entry| entry.event).collect(alloc)?)
}

/// The outcome of a play, if the order is whole.
fn outcome_if_whole(
    alloc: Global,
    given: &Given<'_>,
    moves: &[Moves],
    form: Form,
    order: &[TxnId],
    play: Play,
) -> Result<Option<Outcome>, OrderFault>
    requires { Replays given.now.schedule.now play.machine play.history.items }
{
    if !is_whole(moves, form, order) {
        return Ok(None);
    }
    Ok(Some(outcome_of(alloc, given.schedule, play)?))
}

/// The story of these events over a schedule's rows and transactions, after the first `done` ones.
fn story_of_events(
    alloc: Global,
    schedule: &Schedule,
    events: &[Event],
    done: usize,
) -> Result<Story, OrderFault>
    ensures { IfOk result (λ story. IsStory (leveled schedule.now None events.now) (record { done = done; last = length events.now }) story.steps.items) }
{
    let run = schedule_with(alloc, schedule, None, events)?;
    let range = StepRange {
        done,
        last: events.len(),
    };
    Ok(story_of(alloc, &run, range)?)
}
