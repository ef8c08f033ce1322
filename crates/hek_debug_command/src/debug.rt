//! The command `debug`, with commands from a text.
ghost use Rattle.std.specs.Prelude.{◌≡◌, ◌++◌, Ok, OnOk, IfErr, MatchResult};
ghost use Rattle.std.specs.Io.KnownBytes.{Appends};
ghost use Rattle.hek_debug.specs.Lines.{commands_of};
ghost use Rattle.hek_debug.specs.Sessions.{opened, session_after, stop_of};
ghost use Rattle.hek_report.specs.Files.{IsStop};
ghost use Rattle.hek_debug_command.specs.Debugged.{told_text, session_text, command_fault, CommandTextFails, Debugs, DebugFails};

use crate::stop_text::put_told;
use hek_debug::{Command, CommandFault, Debugger, read_commands};
use hek_report::{HekFault, ScheduleFile, schedule_in, send};
use hek_rules::Schedule;
use std::alloc::Global;
use std::io::{Read, Write};
use std::str;

/// Does the commands in a text with the steps of the schedule in a file. After each command, writes where the debugger
/// is, why it stopped there, and what each watch looks at. Answers the exit status. No command is done before all lines
/// are known to be commands; after a fault the lines of the commands before it may have been written. Bytes that aren't
/// a text are reported before a fault of the file.
pub fn debug_command<'a, R: Read + Drop, W: Write>(
    alloc: Global,
    file: ScheduleFile<R>,
    commands: &[u8],
    out: &mut W,
) -> Result<u8, HekFault<'a>>
    ensures { MatchResult result (λ status. (status ≡ 0) × Debugs R.remaining file commands.now (W.contents out.old) (W.contents out.new)) (DebugFails R.remaining file commands.now) }
{
    let Ok(commands) = str::from_utf8(commands) else {
        return Err(HekFault::NotText);
    };
    let schedule = schedule_in(alloc, file)?;
    let commands = commands_of_text(alloc, &schedule, commands)?;
    debug(alloc, schedule, commands.as_slice(), out)?;
    Ok(0)
}

/// Does commands from the start of a schedule.
pub(crate) fn debug<'a, W: Write>(
    alloc: Global,
    schedule: Schedule,
    commands: &[Command],
    out: &mut W,
) -> Result<(), HekFault<'a>>
    ensures written { OnOk result (Appends (W.contents out.old) (W.contents out.new) (session_text (opened schedule) commands.now)) }
    ensures stops { IfErr result IsStop }
{
    let mut debugger = Debugger::open(alloc, schedule)?;
    do_all(alloc, &mut debugger, commands, out)
}

/// The commands in a text, with the names that a schedule gives.
pub(crate) fn commands_of_text<'a>(
    alloc: Global,
    schedule: &Schedule,
    text: &str,
) -> Result<Vec<Command>, HekFault<'a>>
    ensures { MatchResult result (λ commands. commands_of schedule.now text.now ≡ Ok commands.items) (CommandTextFails schedule.now text.now) }
{
    match read_commands(alloc, schedule, text) {
        Ok(commands) => Ok(commands),
        Err(fault) => Err(fault_of(fault)),
    }
}

/// The fault of a command text as that of the command.
fn fault_of<'a>(fault: CommandFault) -> HekFault<'a>
    ensures { result ≡ command_fault fault }
{
    match fault {
        CommandFault::Line(line) => HekFault::CommandLine(line),
        CommandFault::NoMemory => HekFault::NoMemory,
    }
}

fn do_all<'a, W: Write>(
    alloc: Global,
    debugger: &mut Debugger,
    commands: &[Command],
    out: &mut W,
) -> Result<(), HekFault<'a>>
    ensures written { OnOk result (Appends (W.contents out.old) (W.contents out.new) (session_text debugger.old commands.now)) }
    ensures stops { IfErr result IsStop }
{
    for command in commands {
        do_one(alloc, debugger, *command, out)?;
    }
    Ok(())
}

/// Does a command, and writes where the debugger is then.
pub(crate) fn do_one<'a, W: Write>(
    alloc: Global,
    debugger: &mut Debugger,
    command: Command,
    out: &mut W,
) -> Result<(), HekFault<'a>>
    ensures stands { OnOk result (debugger.new ≡ session_after debugger.old command) }
    ensures written { OnOk result (Appends (W.contents out.old) (W.contents out.new) (told_text (session_after debugger.old command) (stop_of debugger.old command))) }
    ensures stops { IfErr result IsStop }
{
    let Ok(stop) = debugger.command(command) else {
        return Err(HekFault::NoMemory);
    };
    let mut lines = Vec::new(alloc);
    put_told(debugger, &stop, &mut lines)?;
    send(&mut lines, out)
}
