//! What a page says of one step.
ghost use Rattle.std.specs.Prelude.{◌≡◌, IfOk};
ghost use Rattle.hek_why.specs.Leads.{LeadOn};

use crate::changed::put_changed;
use crate::sees::put_sees;
use crate::waits::Waits;
use hek_rules::{Event, NoMemory, Schedule, TxnId};
use hek_step_report::reply_rule;
use hek_step_report::text::{put_reasons, put_release};
use hek_why::{Change, Dooms, Step, changes, reasons, wait_reasons};
use std::alloc::Global;

/// What a page says of a step: what the step changed, and these lines: `changed`, the line of each thing that it changed, as the
/// state has it after the step; `gone`, the buckets that have no line any more; `why`, the reasons; `sees`, what the transaction
/// saw; `waits`, all waits after the step, if they have changed; `ends`, the transactions whose wait has ended. `rule` is the
/// name of the row of the table of replies, and `sentence`, `definition` and `comes` are its texts.
#[derive(Drop)]
pub struct StepText {
    pub changes: Vec<Change>,
    pub changed: Vec<u8>,
    pub gone: Vec<u8>,
    pub why: Vec<u8>,
    pub rule: &'static str,
    pub sentence: &'static str,
    pub definition: &'static str,
    pub comes: &'static str,
    pub sees: Vec<u8>,
    pub waits: Option<Vec<u8>>,
    pub ends: Vec<u8>,
}

/// What is kept from step to step: the waits, and which transactions must abort because of which.
#[derive(Drop)]
pub(crate) struct Watch {
    pub waits: Waits,
    pub dooms: Dooms,
}

/// What a page says of a step.
pub(crate) fn step_text(
    alloc: Global,
    schedule: &Schedule,
    step: &Step<'_>,
    watch: &mut Watch,
) -> Result<StepText, NoMemory>
    ensures { IfOk result (λ text. LeadOn step.now.before.now step.now.after.now text.changes.items) }
{
    let list = changes(alloc, step.before, step.after)?;
    let mut text = StepText {
        changes: list,
        changed: Vec::new(alloc),
        gone: Vec::new(alloc),
        why: Vec::new(alloc),
        rule: "",
        sentence: "",
        definition: "",
        comes: "",
        sees: Vec::new(alloc),
        waits: None,
        ends: Vec::new(alloc),
    };
    fill(alloc, schedule, step, watch, &mut text)?;
    Ok(text)
}

/// Adds the lines of what changed, of the reasons, of what the transaction saw, and of the waits.
fn fill(
    alloc: Global,
    schedule: &Schedule,
    step: &Step<'_>,
    watch: &mut Watch,
    text: &mut StepText,
) -> Result<(), NoMemory>
    ensures kept { text.new.changes ≡ text.old.changes }
{
    let changes = text.changes.as_slice();
    let changed = &mut text.changed;
    put_changed(
        alloc,
        schedule,
        step.after,
        changes,
        changed,
        &mut text.gone,
    )?;
    put_why(alloc, schedule, step, &watch.dooms, text)?;
    put_sees(alloc, schedule, step, &mut text.sees)?;
    watch.waits.changes(alloc, step.after, &mut text.waits)?;
    watch.waits.note(alloc, step, &mut text.ends)
}

/// Adds the reasons, a line each, and the row of the table of replies.
fn put_why(
    alloc: Global,
    schedule: &Schedule,
    step: &Step<'_>,
    dooms: &Dooms,
    text: &mut StepText,
) -> Result<(), NoMemory>
    ensures kept { text.new.changes ≡ text.old.changes }
{
    let t = step.event.txn().unwrap_or(TxnId::new(0));
    let list = reasons(alloc, step, dooms)?;
    let rule = reply_rule(step, list.as_slice());
    text.rule = rule.name;
    text.sentence = rule.sentence;
    text.definition = rule.definition;
    text.comes = rule.comes;
    put_release(schedule, step, false, &mut text.why)?;
    put_reasons(schedule, step.before, t, list.as_slice(), &mut text.why)?;
    put_new_waits(alloc, schedule, step, t, &mut text.why)
}

/// Adds the reasons why the transaction of an `insert` waits, if the insert has made it wait.
fn put_new_waits(
    alloc: Global,
    schedule: &Schedule,
    step: &Step<'_>,
    t: TxnId,
    lines: &mut Vec<u8>,
) -> Result<(), NoMemory> {
    let (before, after) = (step.before, step.after);
    if !matches!(step.event, Event::Insert(..)) || !before.is_declared(t) || !after.is_declared(t) {
        return Ok(());
    }
    if after.waits(t) <= before.waits(t) {
        return Ok(());
    }
    let list = wait_reasons(alloc, after, t)?;
    put_reasons(schedule, after, t, list.as_slice(), lines)
}
