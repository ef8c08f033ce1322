//! A cycle as JSON. The members of an edge are in the order of their names.
use crate::anomaly_words::{Teller, evidence_word, kind_word};
use crate::before::{Before, Side};
use hek_anomalies::{Anomaly, Cause, CycleEdge, EdgeKind, Evidence, OwnFault, Told};
use hek_history_log::Label;
use hek_levels::{Need, Writer};
use hek_report::{Lines, Text};
use hek_rules::Schedule;

impl Teller<'_> {
    /// Puts the member `cycle`: why one transaction is before another, edge by edge.
    pub fn put_cycle(self, cause: &Cause, out: &mut Lines) {
        self.put_edges("cycle", cause.anomaly, cause.cycle.as_slice(), out);
    }

    /// Puts the member `reads` where steps alone show an anomaly: the reads from which they start, with who may have written what they
    /// found.
    pub fn put_reads(self, cause: &Cause, out: &mut Lines) {
        if cause.steps == 0 {
            return;
        }
        out.put_key("reads");
        out.begin_array();
        for told in cause.told.iter() {
            self.put_read(told, out);
        }
        out.end_array();
    }

    /// Puts the object of a read.
    fn put_read(self, told: &Told, out: &mut Lines) {
        let mut words = Vec::new(self.alloc);
        let mut text = Text::after(&mut words);
        self.tell_read(told, &mut text);
        if text.done().is_err() {
            return out.lack_memory();
        }
        out.begin_object();
        self.put_writer("by", Writer::Transaction(told.reader), out);
        put_label("key", self.log.key(told.key), out);
        self.put_value("read", value_in(Some(told.need)), out);
        out.put_bytes("words", words.as_slice());
        out.end_object();
    }

    /// Puts the members `steps`, where steps alone show an anomaly, and `took_place`, the reads that show that transactions of unknown
    /// status took place, if there are some.
    pub fn put_steps(self, cause: &Cause, out: &mut Lines) {
        if cause.steps > 0 {
            out.put_number("steps", cause.steps as u64);
        }
        if !cause.shown.is_empty() {
            self.put_edges("took_place", cause.anomaly, cause.shown.as_slice(), out);
        }
    }

    /// Puts a member with edges.
    fn put_edges(self, name: &str, anomaly: Anomaly, edges: &[CycleEdge], out: &mut Lines) {
        out.put_key(name);
        out.begin_array();
        for edge in edges {
            self.put_edge(anomaly, *edge, out);
        }
        out.end_array();
    }

    /// Puts the object of an edge, with its reasons in words.
    fn put_edge(self, anomaly: Anomaly, edge: CycleEdge, out: &mut Lines) {
        let Ok(words) = self.words_of(anomaly, edge) else {
            return out.lack_memory();
        };
        out.begin_object();
        if !matches!(anomaly, Anomaly::UnwrittenRead | Anomaly::LaterWriteRead) {
            self.put_writer("from", edge.first, out);
        }
        match edge.key {
            Some(key) => put_label("key", self.log.key(key), out),
            None => out.put_null("key"),
        }
        out.put_text("kind", kind_word(edge.kind));
        if let EdgeKind::Own(fault) = edge.kind {
            put_operations(fault, out);
        }
        self.put_value("read", value_in(edge.read), out);
        self.put_evidence(edge, out);
        self.put_writer("to", edge.second, out);
        out.put_bytes("words", words.as_slice());
        self.put_value("written", edge.written.unwrap_or(None), out);
        out.end_object();
    }

    /// The members of an edge about what shows it: `seen` where another answer does, `shown`, and `source`, who wrote what was read.
    fn put_evidence(self, edge: CycleEdge, out: &mut Lines) {
        if let Evidence::Seen(seen) = edge.evidence {
            out.put_key("seen");
            out.begin_object();
            self.put_writer("by", Writer::Transaction(seen.reader), out);
            put_label("key", self.log.key(seen.key), out);
            self.put_value("read", value_in(Some(seen.read)), out);
            self.put_writer("source", seen.writer, out);
            out.end_object();
        }
        out.put_text("shown", evidence_word(edge.evidence));
        if let Some(source) = edge.source {
            self.put_writer("source", source, out);
        }
    }

    /// A value, or null.
    fn put_value(self, name: &str, value: Option<u64>, out: &mut Lines) {
        match value {
            Some(value) => put_label(name, self.log.value(value), out),
            None => out.put_null(name),
        }
    }

    /// The name of a transaction, or null for the opening.
    fn put_writer(self, name: &str, writer: Writer, out: &mut Lines) {
        match writer {
            Writer::Opening => out.put_null(name),
            Writer::Transaction(place) => put_label(name, self.log.name(place), out),
        }
    }
}

/// The value that an answer tells of, if it does.
pub(crate) fn value_in(need: Option<Need>) -> Option<u64> {
    match need {
        Some(Need::Value(value)) => Some(value),
        Some(Need::Absent | Need::Present) | None => None,
    }
}

/// The member `operations` of a transaction's own answers: their numbers, from 1.
fn put_operations(fault: OwnFault, out: &mut Lines) {
    let (first, second) = fault.operations();
    out.put_key("operations");
    out.begin_array();
    if let Some(first) = first {
        out.write_number(first.saturating_add(1) as u64);
    }
    out.write_number(second.saturating_add(1) as u64);
    out.end_array();
}

/// A number or a text of a log.
fn put_label(name: &str, label: Label<'_>, out: &mut Lines) {
    match label {
        Label::Number(number) => out.put_number(name, number),
        Label::Negative(number) => out.put_negative(name, number),
        Label::Text(text) => out.put_text(name, text),
    }
}

/// Puts the member `cycle` of a run.
pub(crate) fn put_befores(schedule: &Schedule, befores: &[Before], out: &mut Lines) {
    out.put_key("cycle");
    out.begin_array();
    for before in befores {
        out.begin_object();
        put_side("from", schedule, before.first, out);
        out.put_maybe("key", before.key);
        out.put_text("kind", kind_word(before.kind));
        out.put_maybe("read", before.read);
        put_side("to", schedule, before.second, out);
        out.put_bytes("words", before.words.as_slice());
        out.put_maybe("written", before.written);
        out.end_object();
    }
    out.end_array();
}

/// The name of a transaction of a run, or null for the opening.
fn put_side(name: &str, schedule: &Schedule, side: Side, out: &mut Lines) {
    match side {
        Side::Opening => out.put_null(name),
        Side::Txn(txn) => out.put_name(name, schedule, txn),
    }
}
