//! One step of a run.
use crate::json::change::put_changes;
use crate::json::reason::put_reasons;
use crate::rule_choice::reply_rule;
use crate::told::{Told, Why};
use hek_report::Lines;
use hek_rules::{Event, Reply, Schedule};

/// Appends the object of a step without reasons and changes.
pub fn put_plain(schedule: &Schedule, number: u64, event: &Event, reply: &Reply, out: &mut Lines) {
    out.begin_step(schedule, number, event, reply);
    out.end_line();
}

/// Appends the object of a step, with the reasons and the changes that are told: with rules also the definition that decided the
/// reply.
pub fn put_told(schedule: &Schedule, told: &Told<'_>, out: &mut Lines) {
    let step = told.step;
    out.begin_step(schedule, told.number, &step.event, step.reply);
    if let Some(why) = told.why {
        let ruled = why == Why::Rules;
        put_reasons(schedule, step, told.reasons, ruled, out);
        if ruled {
            out.put_text("rule", reply_rule(step, told.reasons).definition);
        }
    }
    if let Some(changes) = told.changes {
        put_changes(schedule, changes, out);
    }
    out.end_line();
}
