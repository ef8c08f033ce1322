//! One step: its line of the trace, and under it its reasons and its changes.
ghost use Rattle.std.specs.Prelude.{length};
ghost use Rattle.hek_asm.specs.Trace.{NamesDeclared};

use crate::rule_choice::reply_rule;
use crate::text::changes::put_changes;
use crate::text::reason::{put_reasons, put_ruled_reasons};
use crate::text::released::put_release;
use crate::told::{Told, Why};
use hek_asm::put_line;
use hek_report::{Hole, Text};
use hek_rules::{NoMemory, Schedule, TxnId};
use hek_why::{Reason, Step};

/// Appends the line of a step, and under it what is told beside its event and reply: reasons first, then changes.
pub fn put_told(schedule: &Schedule, told: &Told<'_>, lines: &mut Vec<u8>) -> Result<(), NoMemory>
    requires { NamesDeclared (length schedule.now.txns) told.now.step.now.event }
{
    put_line(
        schedule,
        told.number,
        &told.step.event,
        told.step.reply,
        lines,
    )?;
    put_why(schedule, told, lines)?;
    match told.changes {
        Some(changes) => put_changes(schedule, changes, lines),
        None => Ok(()),
    }
}

/// The reasons of the reply, as they are asked for: of a release first what it gave back; with rules last the definition that
/// decided the reply.
fn put_why(schedule: &Schedule, told: &Told<'_>, lines: &mut Vec<u8>) -> Result<(), NoMemory> {
    let step = told.step;
    let t = step.event.txn().unwrap_or(TxnId::new(0));
    if let Some(why) = told.why {
        put_release(schedule, step, why == Why::Rules, lines)?;
    }
    match told.why {
        None => Ok(()),
        Some(Why::Reasons) => put_reasons(schedule, step.before, t, told.reasons, lines),
        Some(Why::Rules) => {
            put_ruled_reasons(schedule, step, t, told.reasons, lines)?;
            put_rule(step, told.reasons, lines)
        }
    }
}

/// The definition that decided the reply, in a line of its own.
fn put_rule(step: &Step<'_>, reasons: &[Reason], lines: &mut Vec<u8>) -> Result<(), NoMemory> {
    let mut text = Text::after(lines);
    let name = reply_rule(step, reasons).definition;
    text.form("  rule: @\n", &[Hole::Word(name)]);
    text.done()
}
