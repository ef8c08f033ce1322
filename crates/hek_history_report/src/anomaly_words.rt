//! An anomaly in words.
use hek_anomalies::{Anomaly, Cause, CycleEdge, EdgeKind, Evidence, OwnFault, Told};
use hek_history_log::{Label, Log};
use hek_levels::{Need, Writer};
use hek_report::Text;
use hek_rules::NoMemory;
use std::alloc::Global;
use std::fmt;

/// The word of an edge's kind in JSON.
pub(crate) fn kind_word(kind: EdgeKind) -> &'static str {
    match kind {
        EdgeKind::Read => "wr",
        EdgeKind::Overwritten => "rw",
        EdgeKind::Version => "ww",
        EdgeKind::Session => "session",
        EdgeKind::RealTime => "real",
        EdgeKind::Own(_) => "own",
    }
}

/// The word of what shows an edge, in JSON.
pub(crate) fn evidence_word(evidence: Evidence) -> &'static str {
    match evidence {
        Evidence::Answer => "answer",
        Evidence::SameVersion => "same version",
        Evidence::Seen(_) => "another answer",
        Evidence::Versions => "version numbers",
        Evidence::EndTimes => "end times",
        Evidence::Turns => "turns",
    }
}

/// What stands for a mark of a sentence on a log.
#[derive(Clone, Copy)]
enum Part<'a> {
    Word(&'static str),
    /// The number of an operation, from 1.
    Number(usize),
    /// A transaction, a key or a value.
    Label(Label<'a>),
    /// A key, between what is said of it.
    Key(&'static str, Label<'a>, &'static str),
    /// A key with a value, after a verb.
    Pair(&'static str, Label<'a>, Label<'a>),
}

impl fmt::Display for Part<'_> {
    fn fmt<W: fmt::Write>(&self, f: &mut fmt::Formatter<W>) -> fmt::Result {
        match *self {
            Part::Word(word) => f.write_str(word),
            Part::Number(number) => write!(f, "{number}"),
            Part::Label(label) => write!(f, "{label}"),
            Part::Key(front, key, back) => write!(f, "{front}{key}{back}"),
            Part::Pair(verb, key, value) => write!(f, "{verb} {key} = {value}"),
        }
    }
}

/// Tells what keeps a log from a level, by the names, keys and values of the log.
#[derive(Clone, Copy)]
pub struct Teller<'a> {
    pub alloc: Global,
    pub log: &'a Log,
}

/// What a log has.
impl<'a> Teller<'a> {
    /// The name of a writer.
    fn name(self, writer: Writer) -> Part<'a> {
        match writer {
            Writer::Opening => Part::Word("the opening"),
            Writer::Transaction(place) => Part::Label(self.log.name(place)),
        }
    }

    /// What was found at a key.
    fn found(self, key: u64, need: Need) -> Part<'a> {
        let key = self.log.key(key);
        match need {
            Need::Absent => Part::Key("found ", key, " absent"),
            Need::Present => Part::Key("found that ", key, " is there"),
            Need::Value(value) => Part::Pair("read", key, self.log.value(value)),
        }
    }

    /// What a transaction left at a key.
    fn left(self, key: u64, left: Option<u64>) -> Part<'a> {
        let key = self.log.key(key);
        match left {
            None => Part::Key("deleted ", key, ""),
            Some(value) => Part::Pair("wrote", key, self.log.value(value)),
        }
    }
}

/// Why one transaction is before another.
impl Teller<'_> {
    /// What a read found, and who may have written that.
    pub(crate) fn tell_read(self, told: &Told, text: &mut Text<'_>) {
        let reader = self.name(Writer::Transaction(told.reader));
        text.form("@ @: of ", &[reader, self.found(told.key, told.need)]);
        for (place, writer) in told.writers.iter().enumerate() {
            let pattern = if place == 0 { "@" } else { " or @" };
            text.form(pattern, &[self.name(*writer)]);
        }
        text.put(others_of(told));
    }

    /// Why the first of an edge is before the second.
    pub(crate) fn tell_edge(self, anomaly: Anomaly, edge: CycleEdge, text: &mut Text<'_>) {
        let (first, second) = (self.name(edge.first), self.name(edge.second));
        match (edge.kind, edge.key) {
            (EdgeKind::Own(fault), _) => self.tell_own_fault(edge.second, fault, text),
            (EdgeKind::Session, _) => {
                text.form("@ is before @ in their session", &[first, second]);
            }
            (EdgeKind::RealTime, _) | (_, None) => {
                text.form("@ was answered before @ was invoked", &[first, second]);
            }
            (EdgeKind::Version, Some(key)) => self.tell_version(edge, key, text),
            (EdgeKind::Read, Some(key)) => self.tell_source(anomaly, edge, key, text),
            (EdgeKind::Overwritten, Some(key)) => {
                self.tell_overwritten(edge, key, text);
                self.tell_evidence(edge, text);
            }
        }
    }

    /// The words of `tell_edge`.
    pub(crate) fn words_of(self, anomaly: Anomaly, edge: CycleEdge) -> Result<Vec<u8>, NoMemory> {
        let mut words = Vec::new(self.alloc);
        let mut text = Text::after(&mut words);
        self.tell_edge(anomaly, edge, &mut text);
        text.done()?;
        Ok(words)
    }

    /// Why the first of an edge is before the second, where both wrote a key.
    fn tell_version(self, edge: CycleEdge, key: u64, text: &mut Text<'_>) {
        let (first, second) = (self.name(edge.first), self.name(edge.second));
        let name = Part::Label(self.log.key(key));
        match (edge.evidence, edge.read) {
            (Evidence::Seen(seen), Some(read)) => {
                let reader = self.name(Writer::Transaction(seen.reader));
                let saw = self.found(seen.key, seen.read);
                let found = self.found(key, read);
                text.form(
                    "@ wrote @ before @: @ @ of @, and @ of @",
                    &[first, name, second, reader, saw, first, found, second],
                );
            }
            (Evidence::Versions, _) => {
                let pattern = "@ wrote a later version of @ than @";
                text.form(pattern, &[second, name, first]);
            }
            _ => text.form("@ wrote @ after @", &[second, name, first]),
        }
    }

    /// What shows that a read was written over.
    fn tell_evidence(self, edge: CycleEdge, text: &mut Text<'_>) {
        let source = self.name(edge.source.unwrap_or(Writer::Opening));
        match edge.evidence {
            Evidence::Seen(seen) => {
                let reader = self.name(Writer::Transaction(seen.reader));
                let saw = self.found(seen.key, seen.read);
                text.form(" (@ @, and @ wrote both)", &[reader, saw, source]);
            }
            Evidence::Versions => text.put(" (a later version)"),
            Evidence::Turns => text.form(" (@ wrote that before)", &[source]),
            _ => {}
        }
    }

    /// Why the first of an edge is before the second, where the second read what the first wrote.
    fn tell_source(self, anomaly: Anomaly, edge: CycleEdge, key: u64, text: &mut Text<'_>) {
        let need = edge.read.unwrap_or(Need::Absent);
        let (reader, writer) = (self.name(edge.second), self.name(edge.first));
        let is_absent = matches!(need, Need::Absent);
        text.form("@ @, ", &[reader, self.found(key, need)]);
        text.form(read_pattern(anomaly, edge.first, is_absent), &[writer]);
    }

    /// Why the first of an edge is before the second, where the second wrote over what the first read.
    fn tell_overwritten(self, edge: CycleEdge, key: u64, text: &mut Text<'_>) {
        let need = edge.read.unwrap_or(Need::Absent);
        let (pattern, value) = match (edge.written, need) {
            (None, _) => ("@ @, which @ overwrote", 0),
            (Some(None), _) => ("@ @, which @ deleted", 0),
            (Some(Some(value)), Need::Absent) => ("@ @, and @ set it to @", value),
            (Some(Some(value)), _) => ("@ @, which @ overwrote with @", value),
        };
        let (reader, writer) = (self.name(edge.first), self.name(edge.second));
        let value = Part::Label(self.log.value(value));
        text.form(pattern, &[reader, self.found(key, need), writer, value]);
    }

    /// How a transaction's own answers contradict each other. Operations are numbered from 1.
    fn tell_own_fault(self, owner: Writer, fault: OwnFault, text: &mut Text<'_>) {
        let owner = self.name(owner);
        let (earlier, operation) = fault.operations();
        let earlier = Part::Number(earlier.unwrap_or(0).saturating_add(1));
        let number = Part::Number(operation.saturating_add(1));
        match fault {
            OwnFault::Contradicted {
                key,
                left,
                found,
                ..
            } => {
                let (left, found) = (self.left(key, left), self.found(key, found));
                let pattern = "@ @, and then @ (operation @)";
                text.form(pattern, &[owner, left, found, number]);
            }
            OwnFault::Disagree {
                key,
                before,
                after,
                ..
            } => {
                let (before, after) = (self.found(key, before), self.found(key, after));
                let pattern = "@ @ (operation @), and then @ (operation @)";
                text.form(pattern, &[owner, before, earlier, after, number]);
            }
            OwnFault::Unordered { .. } => {
                text.form("operation @ of @ has a key twice", &[number, owner]);
            }
            OwnFault::Outside { key, .. } => {
                let pattern = "operation @ of @ is a scan that @ is not in";
                text.form(pattern, &[number, owner, Part::Label(self.log.key(key))]);
            }
        }
    }
}

/// Lines of text.
impl Teller<'_> {
    /// Adds the lines of what keeps a log from a level: each edge of a cycle in words, and in a column after them which transaction is
    /// before which; below them the reads that show that transactions of unknown status took place. Where steps alone show it, from which
    /// reads they start.
    pub fn put_lines(self, cause: &Cause, text: &mut Text<'_>) {
        let Ok(width) = self.width_of(cause) else {
            return text.lack_memory();
        };
        for edge in cause.cycle.iter() {
            text.put("  ");
            self.tell_edge(cause.anomaly, *edge, text);
            if cause.cycle.len() > 1 {
                let column = text.column();
                text.marks(" ", width.saturating_sub(column));
                let (first, second) = (self.name(edge.first), self.name(edge.second));
                text.form("    @ before @", &[first, second]);
            }
            text.put("\n");
        }
        for edge in cause.shown.iter() {
            text.form("  @ took place: ", &[self.name(edge.first)]);
            self.tell_edge(cause.anomaly, *edge, text);
            text.put("\n");
        }
        self.put_steps_lines(cause, text);
    }

    /// The column behind the longest words on an edge of a cycle.
    fn width_of(self, cause: &Cause) -> Result<usize, NoMemory> {
        let mut words = Vec::new(self.alloc);
        let mut text = Text::after(&mut words);
        let mut width = 0usize;
        for edge in cause.cycle.iter() {
            text.put("\n  ");
            self.tell_edge(cause.anomaly, *edge, &mut text);
            width = width.max(text.column());
        }
        text.done()?;
        Ok(width)
    }

    /// Adds the lines of what steps alone show.
    fn put_steps_lines(self, cause: &Cause, text: &mut Text<'_>) {
        if cause.steps == 0 {
            return;
        }
        let pattern = "  by @ steps, from these answers:\n";
        text.form(pattern, &[Part::Number(cause.steps)]);
        for told in cause.told.iter() {
            text.put("    ");
            self.tell_read(told, text);
            text.put("\n");
        }
    }
}

/// What is said behind those who may have written what a read found.
fn others_of(told: &Told) -> &'static str {
    match (told.writers.is_empty(), told.others) {
        (true, true) => "others",
        (true, false) => "nobody",
        (false, true) => " or others",
        (false, false) => "",
    }
}

/// What is said of a read beside what it found, with `@` for the name of who wrote that.
fn read_pattern(anomaly: Anomaly, writer: Writer, is_absent: bool) -> &'static str {
    match (anomaly, writer, is_absent) {
        (Anomaly::UnwrittenRead, _, true) => "which nobody deleted",
        (Anomaly::UnwrittenRead, _, false) => "which nobody wrote",
        (Anomaly::LaterWriteRead, _, _) => "which only it wrote, and that later",
        (Anomaly::ReadOfContradiction, _, _) => {
            "written by @, whose own answers contradict each other"
        }
        (Anomaly::AbortedRead, _, true) => "deleted by @, which aborted",
        (Anomaly::AbortedRead, _, false) => "written by @, which aborted",
        (Anomaly::IntermediateRead, _, true) => "which @ deleted, and then wrote again",
        (Anomaly::IntermediateRead, _, false) => "which @ wrote over itself",
        (_, Writer::Opening, _) => "as at the opening",
        (_, _, true) => "which @ deleted",
        _ => "which @ wrote",
    }
}
