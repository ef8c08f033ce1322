//! The commands `page --orders` and `page --levels`: every order of a schedule's moves as one page, the explorer, and the
//! explorers at all levels as one page.
ghost use Rattle.std.specs.Prelude.{◌≡◌, IfOk, IfErr, MatchResult};
ghost use Rattle.hek_page_command.specs.Explorers.{Explores, ExploreFails, IsExplored, IsExploreStop};

use crate::comments::{Comments, comments_in};
use crate::heading::{Heading, put_heading};
use crate::sheet::write_sheet;
use crate::states::nodes_of;
use crate::texts::{add_invariants, step_texts};
use crate::tree::{fault_of, tree_of};
use crate::tree_data::put_tree_data;
use hek_permute::{Form, moves_of, schedule_with};
use hek_permute_command::{Given, leveled, program_in};
use hek_program::Program;
use hek_report::{HekFault, Lines, ScheduleFile, schedule_in};
use hek_rules::{Level, Schedule};
use std::alloc::Global;
use std::io::{Read, Write};

/// How many nodes an explorer has at most, if the caller gives no other limit: a node is a prefix of orders, or, where
/// these are more, a state to which prefixes lead.
pub const MOST_NODES: u64 = 5_000;

/// How the end of a transaction is cut into moves, and how many nodes there may be.
#[derive(Clone, Copy)]
pub struct Extent {
    pub form: Form,
    pub limit: u64,
}

/// Writes the explorer of the orders of the moves of the schedule in a file. Answers the exit status. If there are
/// more nodes than the limit, `faults` says so, nothing is written, and the status is 1.
pub fn explorer_command<'a, R: Read + Drop, W: Write, E: Write>(
    alloc: Global,
    file: ScheduleFile<R>,
    extent: Extent,
    heading: Heading<'_>,
    out: &mut W,
    faults: &mut E,
) -> Result<u8, HekFault<'a>>
    ensures { MatchResult result (λ status. Explores R.remaining file status (W.contents out.old) (W.contents out.new)) (ExploreFails R.remaining file) }
{
    let comments = comments_in(alloc, &file)?;
    let schedule = schedule_in(alloc, file)?;
    write_plain(alloc, schedule, extent, &heading, &comments, out, faults)
}

/// Writes the explorer of a schedule.
fn write_plain<'a, W: Write, E: Write>(
    alloc: Global,
    schedule: Schedule,
    extent: Extent,
    heading: &Heading<'_>,
    comments: &Comments,
    out: &mut W,
    faults: &mut E,
) -> Result<u8, HekFault<'a>>
    ensures answer { IfOk result (λ status. IsExplored status (W.contents out.old) (W.contents out.new)) }
    ensures stops { IfErr result IsExploreStop }
{
    let program = Program::plain(alloc, schedule);
    let given = Given::of(&program);
    write_explorer(alloc, &given, &[], extent, heading, comments, out, faults)
}

fn write_explorer<'a, W: Write, E: Write>(
    alloc: Global,
    given: &Given<'_>,
    texts: &[String],
    extent: Extent,
    heading: &Heading<'_>,
    comments: &Comments,
    out: &mut W,
    faults: &mut E,
) -> Result<u8, HekFault<'a>>
    ensures answer { IfOk result (λ status. IsExplored status (W.contents out.old) (W.contents out.new)) }
    ensures stops { IfErr result IsExploreStop }
{
    let mut data = Lines::new(alloc);
    data.begin_line();
    let fits = put_explorer(alloc, given, texts, extent, heading, comments, &mut data)?;
    data.end_line();
    write_data(alloc, extent, heading, fits, &mut data, out, faults)
}

/// Puts the members of the explorer of a schedule. Answers whether there are no more nodes than the limit: if there are,
/// nothing is put.
fn put_explorer<'a>(
    alloc: Global,
    given: &Given<'_>,
    texts: &[String],
    extent: Extent,
    heading: &Heading<'_>,
    comments: &Comments,
    data: &mut Lines,
) -> Result<bool, HekFault<'a>>
    ensures stops { IfErr result IsExploreStop }
{
    let Extent { form, limit } = extent;
    let moves = moves_of(alloc, given.schedule, given.rules)?;
    let moves = moves.as_slice();
    let nodes = match nodes_of(alloc, given.schedule, moves, form, limit) {
        Ok(Some(nodes)) => nodes,
        Ok(None) => return Ok(false),
        Err(fault) => return Err(fault_of(fault)),
    };
    let tree = tree_of(alloc, given, moves, form, &nodes)?;
    put_tree_data(
        alloc, given, texts, moves, form, &tree, heading, comments, data,
    )?;
    Ok(true)
}

/// Writes the page of these data; if they do not fit, `faults` says that there are more nodes than the limit.
fn write_data<'a, W: Write, E: Write>(
    alloc: Global,
    extent: Extent,
    heading: &Heading<'_>,
    fits: bool,
    data: &mut Lines,
    out: &mut W,
    faults: &mut E,
) -> Result<u8, HekFault<'a>>
    ensures answer { IfOk result (λ status. IsExplored status (W.contents out.old) (W.contents out.new)) }
    ensures stops { IfErr result IsExploreStop }
{
    if !fits {
        let limit = extent.limit;
        let _ = writeln!(faults, "hek: page: more than {limit} nodes");
        return Ok(1);
    }
    let Ok(data) = data.take() else {
        return Err(HekFault::NoMemory);
    };
    match write_sheet(alloc, heading, data.as_slice(), out) {
        Ok(()) => Ok(0),
        Err(HekFault::CannotWrite) => Err(HekFault::CannotWrite),
        Err(_) => Err(HekFault::NoMemory),
    }
}

/// Writes the explorers of the schedule in a file with all transactions at each level, as one page. Answers as
/// `explorer_command` does.
pub fn levels_command<'a, R: Read + Drop, W: Write, E: Write>(
    alloc: Global,
    file: ScheduleFile<R>,
    extent: Extent,
    heading: Heading<'_>,
    out: &mut W,
    faults: &mut E,
) -> Result<u8, HekFault<'a>>
    ensures { MatchResult result (λ status. Explores R.remaining file status (W.contents out.old) (W.contents out.new)) (ExploreFails R.remaining file) }
{
    let comments = comments_in(alloc, &file)?;
    let schedule = schedule_in(alloc, file)?;
    write_plain_levels(alloc, schedule, extent, &heading, &comments, out, faults)
}

/// Writes the explorers of a schedule at all levels.
fn write_plain_levels<'a, W: Write, E: Write>(
    alloc: Global,
    schedule: Schedule,
    extent: Extent,
    heading: &Heading<'_>,
    comments: &Comments,
    out: &mut W,
    faults: &mut E,
) -> Result<u8, HekFault<'a>>
    ensures answer { IfOk result (λ status. IsExplored status (W.contents out.old) (W.contents out.new)) }
    ensures stops { IfErr result IsExploreStop }
{
    let program = Program::plain(alloc, schedule);
    let given = Given::of(&program);
    write_levels(alloc, &given, &[], extent, heading, comments, out, faults)
}

/// Which explorer is shown.
#[derive(Clone, Copy, PartialEq, Eq)]
pub enum Explored {
    /// That of all transactions at a level, or at their own.
    At(Option<Level>),
    /// Those at all levels.
    AllLevels,
}

/// Writes the explorer of the orders of the moves of the program in a file, or the explorers at all levels. A schedule is
/// the program of its steps. Answers as `explorer_command` does.
pub fn program_command<'a, R: Read + Drop, W: Write, E: Write>(
    alloc: Global,
    file: ScheduleFile<R>,
    explored: Explored,
    extent: Extent,
    heading: Heading<'_>,
    out: &mut W,
    faults: &mut E,
) -> Result<u8, HekFault<'a>>
    ensures answer { IfOk result (λ status. IsExplored status (W.contents out.old) (W.contents out.new)) }
{
    let mut comments = comments_in(alloc, &file)?;
    add_invariants(alloc, &file, &mut comments.about)?;
    let texts = step_texts(alloc, &file)?;
    let program = program_in(alloc, file)?;
    let given = Given::of(&program);
    let texts = texts.as_slice();
    match explored {
        Explored::At(level) => write_at(
            alloc, &given, texts, level, extent, &heading, &comments, out, faults,
        ),
        Explored::AllLevels => write_levels(
            alloc, &given, texts, extent, &heading, &comments, out, faults,
        ),
    }
}

/// Writes the explorer with all transactions at a level, or at their own.
fn write_at<'a, W: Write, E: Write>(
    alloc: Global,
    given: &Given<'_>,
    texts: &[String],
    level: Option<Level>,
    extent: Extent,
    heading: &Heading<'_>,
    comments: &Comments,
    out: &mut W,
    faults: &mut E,
) -> Result<u8, HekFault<'a>>
    ensures answer { IfOk result (λ status. IsExplored status (W.contents out.old) (W.contents out.new)) }
{
    let schedule = given.schedule;
    let leveled_one = leveled(alloc, schedule, level, schedule.steps())?;
    let over = given.over(&leveled_one);
    write_explorer(alloc, &over, texts, extent, heading, comments, out, faults)
}

fn write_levels<'a, W: Write, E: Write>(
    alloc: Global,
    given: &Given<'_>,
    texts: &[String],
    extent: Extent,
    heading: &Heading<'_>,
    comments: &Comments,
    out: &mut W,
    faults: &mut E,
) -> Result<u8, HekFault<'a>>
    ensures answer { IfOk result (λ status. IsExplored status (W.contents out.old) (W.contents out.new)) }
    ensures stops { IfErr result IsExploreStop }
{
    let mut data = Lines::new(alloc);
    data.begin_line();
    data.put_text("kind", "levels");
    put_heading(alloc, heading, comments, &mut data);
    data.put_key("trees");
    data.begin_array();
    let fits = put_levels(alloc, given, texts, extent, heading, comments, &mut data)?;
    data.end_array();
    data.end_line();
    write_data(alloc, extent, heading, fits, &mut data, out, faults)
}

/// Puts the objects of the explorers at all levels, from the strictest on. Answers whether none has more nodes than the limit.
fn put_levels<'a>(
    alloc: Global,
    given: &Given<'_>,
    texts: &[String],
    extent: Extent,
    heading: &Heading<'_>,
    comments: &Comments,
    data: &mut Lines,
) -> Result<bool, HekFault<'a>>
    ensures stops { IfErr result IsExploreStop }
{
    for level in Level::ALL {
        data.begin_object();
        match put_at(alloc, given, texts, level, extent, heading, comments, data) {
            Ok(true) => data.end_object(),
            other => return other,
        }
    }
    Ok(true)
}

/// Puts the members of the explorer with all transactions at a level, as `put_explorer` does.
fn put_at<'a>(
    alloc: Global,
    given: &Given<'_>,
    texts: &[String],
    level: Level,
    extent: Extent,
    heading: &Heading<'_>,
    comments: &Comments,
    data: &mut Lines,
) -> Result<bool, HekFault<'a>>
    ensures stops { IfErr result IsExploreStop }
{
    let schedule = given.schedule;
    let Ok(leveled_one) = schedule_with(alloc, schedule, Some(level), schedule.steps()) else {
        return Err(HekFault::NoMemory);
    };
    let over = given.over(&leveled_one);
    put_explorer(alloc, &over, texts, extent, heading, comments, data)
}
