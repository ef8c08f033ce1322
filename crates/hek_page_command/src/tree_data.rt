//! The data of an explorer's page, as members of an object of JSON.
use crate::comments::Comments;
use crate::data::{put_lines, text_of};
use crate::heading::{Heading, put_heading};
use crate::states::Join;
use crate::tree::{Node, StepPlaces, Tree};
use hek_permute::{Form, Moves, Outcome};
use hek_permute_command::{Given, put_judged};
use hek_report::Lines;
use hek_rules::{Event, NoMemory, Schedule, TxnId};
use hek_worker::is_work;
use indexmap::IndexSet;
use std::alloc::Global;
use std::io::Write;

/// Puts the data of the page of a tree of orders.
pub(crate) fn put_tree_data(
    alloc: Global,
    given: &Given<'_>,
    texts: &[String],
    moves: &[Moves],
    form: Form,
    tree: &Tree,
    heading: &Heading<'_>,
    comments: &Comments,
    out: &mut Lines,
) -> Result<(), NoMemory> {
    out.put_text("kind", "tree");
    put_heading(alloc, heading, comments, out);
    put_start(given.schedule, tree, out);
    put_names(given.schedule, out);
    put_moves(alloc, given, texts, moves, form, out);
    put_tree(alloc, given, tree, out)
}

/// Puts the state before the first move, in which nobody waits.
fn put_start(schedule: &Schedule, tree: &Tree, out: &mut Lines) {
    out.put_number("buckets", schedule.buckets());
    out.put_number("done", 0);
    put_lines("opening", tree.opening.as_slice(), out);
    out.put_text("waits", "");
    out.put_text("asked", "");
}

/// Puts the names of the transactions.
fn put_names(schedule: &Schedule, out: &mut Lines) {
    out.put_key("names");
    out.begin_array();
    for place in 0..schedule.txn_count() {
        out.write_text(schedule.name_of(TxnId::new(place as u64 + 1)));
    }
    out.end_array();
}

/// Puts the moves of each transaction.
fn put_moves(
    alloc: Global,
    given: &Given<'_>,
    texts: &[String],
    moves: &[Moves],
    form: Form,
    out: &mut Lines,
) {
    out.put_key("moves");
    out.begin_array();
    for (place, of_one) in moves.iter().enumerate() {
        let txn = TxnId::new((place as u64).saturating_add(1));
        write_moves(
            alloc,
            given,
            texts,
            txn,
            last_texts(form, of_one.fails()),
            form,
            out,
        );
    }
    out.end_array();
}

/// Writes the moves of one transaction: its reads and writes, and those that end it.
fn write_moves(
    alloc: Global,
    given: &Given<'_>,
    texts: &[String],
    txn: TxnId,
    last: &[&'static str],
    form: Form,
    out: &mut Lines,
) {
    out.begin_array();
    if form == Form::Event {
        out.write_text("begin");
    }
    for (place, event) in given.schedule.steps().iter().enumerate() {
        if is_move(given, txn, place, event) {
            match texts.get(place) {
                Some(text) => out.write_text(text.as_str()),
                None => write_work(alloc, event, out),
            }
        }
    }
    for text in last {
        out.write_text(text);
    }
    out.end_array();
}

/// Whether the step at a place is a move of a transaction that isn't its last.
fn is_move(given: &Given<'_>, txn: TxnId, place: usize, event: &Event) -> bool {
    let fails_if = event.txn() == Some(txn) && given.fails_if(place, event);
    fails_if || is_work(txn, *event)
}

/// Writes a read or a write as a schedule text has it, without the name.
fn write_work(alloc: Global, event: &Event, out: &mut Lines) {
    let mut text = Vec::new(alloc);
    let (word, first, second) = (event.kind().word(), event.first(), event.second());
    let written = match event.kind().operand_count() {
        0 => write!(text, "{word}"),
        1 => write!(text, "{word} {first}"),
        _ => write!(text, "{word} {first} {second}"),
    };
    if written.is_err() {
        return out.lack_memory();
    }
    out.write_text(text_of(text.as_slice()));
}

/// The moves that end a transaction.
fn last_texts(form: Form, fails: bool) -> &'static [&'static str] {
    match (form, fails) {
        (Form::Whole, false) => &["finish, commit"],
        (Form::Whole, true) => &["fail"],
        (Form::Split, false) => &["finish, precommit", "commit"],
        (Form::Split, true) => &["finish, precommit", "fail"],
        (Form::Event, false) => &["finish", "precommit", "commit"],
        (Form::Event, true) => &["finish", "precommit", "fail"],
    }
}

/// Puts the nodes, and what they name by place.
fn put_tree(
    alloc: Global,
    given: &Given<'_>,
    tree: &Tree,
    out: &mut Lines,
) -> Result<(), NoMemory> {
    put_outcomes(alloc, given, tree.outcomes.as_slice(), out)?;
    put_texts("texts", &tree.texts, out);
    out.put_key("steps");
    out.begin_array();
    for step in &tree.steps {
        write_step(step, out);
    }
    out.end_array();
    out.put_key("nodes");
    out.begin_array();
    for node in &tree.nodes {
        write_node(node, out);
    }
    out.end_array();
    Ok(())
}

/// Puts the outcomes, each as `hek permute --json` writes one.
fn put_outcomes(
    alloc: Global,
    given: &Given<'_>,
    outcomes: &[Outcome],
    out: &mut Lines,
) -> Result<(), NoMemory> {
    out.put_key("outcomes");
    out.begin_array();
    for outcome in outcomes {
        out.begin_object();
        put_judged(alloc, given, outcome, out)?;
        out.end_object();
    }
    out.end_array();
    Ok(())
}

fn put_texts(name: &str, texts: &IndexSet<Vec<u8>>, out: &mut Lines) {
    out.put_key(name);
    out.begin_array();
    for text in texts {
        out.write_text(text_of(text.as_slice()));
    }
    out.end_array();
}

/// Writes a step: the place of the text of its event and reply, those of its other texts, and that of the waits, if they
/// have changed.
fn write_step(step: &StepPlaces, out: &mut Lines) {
    out.begin_array();
    for place in [
        step.line,
        step.changed,
        step.gone,
        step.why,
        step.sees,
        step.ends,
        step.rule,
        step.sentence,
        step.definition,
        step.comes,
    ] {
        out.write_number(place as u64);
    }
    if let Some(place) = step.waits {
        out.write_number(place as u64);
    }
    out.end_array();
}

/// Writes a node: its parent's place, the number of the transaction that moves, the places of its steps, a list with the
/// place of its outcome, if it has one, how many orders lead to each outcome, and the moves that lead to nodes of other
/// branches, if there are some.
fn write_node(node: &Node, out: &mut Lines) {
    out.begin_array();
    out.write_number(node.parent as u64);
    out.write_number(node.who.number());
    write_places(node.steps.as_slice(), out);
    out.begin_array();
    if let Some(place) = node.outcome {
        out.write_number(place as u64);
    }
    out.end_array();
    out.begin_array();
    for count in &node.counts {
        out.write_number(*count);
    }
    out.end_array();
    if !node.joins.is_empty() {
        write_joins(node.joins.as_slice(), out);
    }
    out.end_array();
}

fn write_places(places: &[usize], out: &mut Lines) {
    out.begin_array();
    for place in places {
        out.write_number(*place as u64);
    }
    out.end_array();
}

/// Writes moves that lead to nodes of other branches: the number of the transaction, and the place of the node.
fn write_joins(joins: &[Join], out: &mut Lines) {
    out.begin_array();
    for join in joins {
        out.begin_array();
        out.write_number(join.who.number());
        out.write_number(join.to as u64);
        out.end_array();
    }
    out.end_array();
}
