//! The shortest beginning of an order in which something comes, as a schedule.
use crate::details::details_of;
use crate::given::Given;
use crate::kinds::{Beginning as Kind, begins_replies, find_kind};
use crate::one::{Played, fault_of, leveled};
use crate::players::Players;
use crate::progress::Progress;
use hek_asm::{TraceFault, read_trace};
use hek_history_report::Together;
use hek_permute::{
    Form, Moves, OrderFault, Outcome, Play, Sought, find_order, first_order, moves_of, play_order,
};
use hek_report::HekFault;
use hek_rules::{Event, NoMemory, Reply, Schedule, TxnId};
use hek_serial::Serializability;
use std::alloc::Global;
use std::io::Write;

/// What is looked for in the plays of orders.
#[derive(Drop)]
enum Wanted {
    Reply(Sought),
    /// Replies that begin with some words.
    Kind(Kind),
    /// An order with this verdict.
    Verdict(Serializability),
    /// An order that breaks an invariant.
    Breaks,
}

/// The text that asks for an order that breaks an invariant.
const BREAKS: &str = "breaks";

/// The moves after which it came, and how many moves an order has.
#[derive(Drop)]
struct Beginning {
    moves: Vec<TxnId>,
    most: usize,
}

/// The play of the shortest beginning of an order in which something comes.
#[derive(Drop)]
pub(crate) struct Found {
    /// The moves, and the schedule of their play up to the event that has the reply.
    pub(crate) played: Played,
    /// Whether those that committed can follow one another, if a verdict was looked for.
    pub(crate) together: Option<Together>,
    /// The line of the first invariant that the order breaks, if all of it was played.
    pub(crate) breaks: Option<u64>,
}

/// The verdict that a text asks for, as it is printed.
fn verdict_named(text: &str) -> Option<Serializability> {
    match text {
        "serializable" => Some(Serializability::ByEndTime),
        "serializable in another order" => Some(Serializability::InAnotherOrder),
        "not serializable" => Some(Serializability::NotSerial),
        _ => None,
    }
}

/// What a text asks for: a verdict; a reply or the words with which replies begin, maybe after a name.
fn wanted_of<'a>(alloc: Global, schedule: &Schedule, text: &str) -> Result<Wanted, HekFault<'a>> {
    if let Some(verdict) = verdict_named(text) {
        return Ok(Wanted::Verdict(verdict));
    }
    if text == BREAKS {
        return Ok(Wanted::Breaks);
    }
    if let Some(wanted) = wanted_by(alloc, schedule, None, text)? {
        return Ok(wanted);
    }
    let (name, rest) = text.split_once(' ').ok_or(HekFault::BadArgument)?;
    let who = schedule.id_of(name.as_bytes());
    if who.is_none() {
        return Err(HekFault::BadArgument);
    }
    match wanted_by(alloc, schedule, who, rest)? {
        Some(wanted) => Ok(wanted),
        None => Err(HekFault::BadArgument),
    }
}

/// The replies of a transaction, or of any, that a text asks for, if it is a reply or the words with which some begin.
fn wanted_by<'a>(
    alloc: Global,
    schedule: &Schedule,
    who: Option<TxnId>,
    text: &str,
) -> Result<Option<Wanted>, HekFault<'a>> {
    if let Some(reply) = reply_named(alloc, schedule, text)? {
        return Ok(Some(Wanted::Reply(Sought { who, reply })));
    }
    if !begins_replies(text) {
        return Ok(None);
    }
    match String::from_str(alloc, text) {
        Ok(words) => Ok(Some(Wanted::Kind(Kind { who, words }))),
        Err(_) => Err(HekFault::NoMemory),
    }
}

/// The reply that a text is, as a trace has it.
fn reply_named<'a>(
    alloc: Global,
    schedule: &Schedule,
    text: &str,
) -> Result<Option<Reply>, HekFault<'a>> {
    if text.contains('\n') {
        return Ok(None);
    }
    let line = detect_line(alloc, text)?;
    match read_trace(alloc, schedule, line.as_str()) {
        Ok(told) => match told.replies().first() {
            Some(reply) => Ok(Some(reply.copy()?)),
            None => Ok(None),
        },
        Err(TraceFault::Line(_)) => Ok(None),
        Err(TraceFault::NoMemory) => Err(HekFault::NoMemory),
    }
}

/// The line of a trace with this text as the reply.
fn detect_line(alloc: Global, text: &str) -> Result<String, NoMemory> {
    let mut line = String::from_str(alloc, "1 detect -> ")?;
    line.push_str(text)?;
    line.push('\n')?;
    Ok(line)
}

/// The moves after which it came, if it comes; None if orders lead to more states than the limit.
fn beginning_of<P: Players, E: Write>(
    players: &P,
    alloc: Global,
    given: &Given<'_>,
    form: Form,
    wanted: &Wanted,
    limit: u64,
    progress: &mut Progress<'_, E>,
) -> Result<Option<Search>, OrderFault>
    requires { P.can_play players.now }
{
    let moves = match wanted {
        Wanted::Reply(sought) => find_order(
            alloc,
            given.schedule,
            given.rules,
            form,
            sought,
            progress,
        )?,
        Wanted::Kind(kind) => find_kind(alloc, given, form, kind, progress)?,
        Wanted::Verdict(_) | Wanted::Breaks => {
            return first_with(players, alloc, given, form, wanted, limit, progress);
        }
    };
    Ok(Some(Search {
        moves,
        verdict: None,
        breaks: None,
    }))
}

/// How many moves an order has.
fn most_moves<'a>(alloc: Global, given: &Given<'_>, form: Form) -> Result<usize, HekFault<'a>> {
    let moves = moves_of(alloc, given.schedule, given.rules)?;
    Ok(first_order(alloc, moves.as_slice(), form)?.len())
}

/// The first order with a verdict, or that breaks an invariant: a row of the tally of all orders has the first of its own, and
/// the first row has the first of all. None if orders lead to more states than the limit.
fn first_with<P: Players, E: Write>(
    players: &P,
    alloc: Global,
    given: &Given<'_>,
    form: Form,
    wanted: &Wanted,
    limit: u64,
    progress: &mut Progress<'_, E>,
) -> Result<Option<Search>, OrderFault>
    requires { P.can_play players.now }
{
    let explored = players.explore(alloc, given.schedule, given.rules, form, limit, progress)?;
    let Some(tally) = explored else {
        return Ok(None);
    };
    for row in tally.rows() {
        if is_wanted(alloc, given, wanted, row.outcome())? {
            return Ok(Some(Search {
                moves: Some(Vec::from_slice(alloc, row.first())?),
                verdict: Some(row.outcome().verdict()),
                breaks: given.broken_by(alloc, row.outcome())?,
            }));
        }
    }
    Ok(Some(Search {
        moves: None,
        verdict: None,
        breaks: None,
    }))
}

/// Whether an outcome is looked for.
fn is_wanted(
    alloc: Global,
    given: &Given<'_>,
    wanted: &Wanted,
    outcome: &Outcome,
) -> Result<bool, NoMemory> {
    match wanted {
        Wanted::Verdict(verdict) => Ok(outcome.verdict() == *verdict),
        Wanted::Breaks => Ok(given.broken_by(alloc, outcome)?.is_some()),
        Wanted::Reply(_) | Wanted::Kind(_) => Ok(false),
    }
}

/// The moves after which it comes, if it comes in an order.
#[derive(Drop)]
struct Search {
    moves: Option<Vec<TxnId>>,
    /// The verdict of the order, if all orders were looked through.
    verdict: Option<Serializability>,
    /// The line of the first invariant that the order breaks, if all orders were looked through.
    breaks: Option<u64>,
}

/// Whether a text asks for a verdict, which is looked for by states.
pub(crate) fn is_verdict(text: &str) -> bool {
    verdict_named(text).is_some() || text == BREAKS
}

/// The moves that were found, and the schedule of their play up to the event that has the reply.
fn played_of<'a>(
    alloc: Global,
    given: &Given<'_>,
    form: Form,
    wanted: &Wanted,
    found: Beginning,
) -> Result<Played, HekFault<'a>> {
    let events = events_found(alloc, given, form, wanted, found.moves.as_slice())?;
    let made = leveled(alloc, given.schedule, None, events.as_slice())?;
    let Beginning { moves, most } = found;
    Ok(Played {
        moves,
        most,
        schedule: made,
    })
}

/// The events of the play of moves, up to the event that has the reply.
fn events_found<'a>(
    alloc: Global,
    given: &Given<'_>,
    form: Form,
    wanted: &Wanted,
    moves: &[TxnId],
) -> Result<Vec<Event>, HekFault<'a>> {
    let of_all = moves_of(alloc, given.schedule, given.rules)?;
    events_played(
        alloc,
        given.schedule,
        form,
        wanted,
        of_all.as_slice(),
        moves,
    )
}

/// The events of the play of moves, up to the event that has the reply, given the moves of all transactions.
fn events_played<'a>(
    alloc: Global,
    schedule: &Schedule,
    form: Form,
    wanted: &Wanted,
    of_all: &[Moves],
    moves: &[TxnId],
) -> Result<Vec<Event>, HekFault<'a>> {
    match play_order(alloc, schedule, of_all, form, moves) {
        Ok(play) => Ok(events_upto(alloc, &play, wanted)?),
        Err(fault) => Err(fault_of(fault)),
    }
}

/// What a search came to.
#[derive(Drop)]
pub(crate) enum Answer {
    Found(Found),
    /// It comes in no order.
    Nowhere,
    /// Orders lead to more states than the limit.
    TooMany,
}

/// The shortest beginning of an order in which a reply or a verdict comes. A verdict is looked for among at most `limit`
/// states.
pub(crate) fn found_in<'a, P: Players, E: Write>(
    players: &P,
    alloc: Global,
    given: &Given<'_>,
    form: Form,
    text: &str,
    limit: u64,
    progress: &mut Progress<'_, E>,
) -> Result<Answer, HekFault<'a>>
    requires { P.can_play players.now }
{
    let wanted = wanted_of(alloc, given.schedule, text)?;
    match beginning_of(players, alloc, given, form, &wanted, limit, progress) {
        Ok(Some(search)) => answer_of(alloc, given, form, &wanted, search),
        Ok(None) => Ok(Answer::TooMany),
        Err(fault) => Err(fault_of(fault)),
    }
}

/// What a search came to, with the play of what it found.
fn answer_of<'a>(
    alloc: Global,
    given: &Given<'_>,
    form: Form,
    wanted: &Wanted,
    search: Search,
) -> Result<Answer, HekFault<'a>> {
    let Search {
        moves,
        verdict,
        breaks,
    } = search;
    let Some(moves) = moves else {
        return Ok(Answer::Nowhere);
    };
    let most = most_moves(alloc, given, form)?;
    let beginning = Beginning { moves, most };
    let together = together_of(alloc, given, form, verdict, beginning.moves.as_slice())?;
    Ok(Answer::Found(Found {
        played: played_of(alloc, given, form, wanted, beginning)?,
        together,
        breaks,
    }))
}

/// What is said of the order that was found, if a verdict was looked for.
fn together_of<'a>(
    alloc: Global,
    given: &Given<'_>,
    form: Form,
    verdict: Option<Serializability>,
    order: &[TxnId],
) -> Result<Option<Together>, HekFault<'a>> {
    match verdict {
        None => Ok(None),
        Some(verdict) => Ok(Some(details_of(alloc, given, form, order, verdict)?)),
    }
}

/// The events of a play up to the first that has the reply; all, if none is asked for.
fn events_upto(alloc: Global, play: &Play, wanted: &Wanted) -> Result<Vec<Event>, NoMemory> {
    let mut events = Vec::new(alloc);
    for entry in play.history.as_slice() {
        events.push(entry.event)?;
        let is_last = match wanted {
            Wanted::Reply(sought) => sought.is_of(entry),
            Wanted::Kind(kind) => kind.is_of(alloc, entry)?,
            Wanted::Verdict(_) | Wanted::Breaks => false,
        };
        if is_last {
            break;
        }
    }
    Ok(events)
}
