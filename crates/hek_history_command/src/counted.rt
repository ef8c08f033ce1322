//! How many anomalies there are of each name.
use hek_anomalies::Anomaly;
use hek_report::{Hole, Lines, Text};
use hek_rules::NoMemory;
use std::alloc::Global;

/// What is said of a log without the answers on which its anomalies rest.
#[derive(Clone, Copy, PartialEq, Eq)]
pub(crate) enum Rest {
    /// It holds at the level that was asked for.
    Holds,
    /// It is serializable, for which nobody asked.
    Serializable,
    Unknown,
}

impl Rest {
    pub(crate) fn word(self) -> &'static str {
        match self {
            Rest::Holds => "holds",
            Rest::Serializable => "serializable",
            Rest::Unknown => "unknown",
        }
    }
}

/// The anomalies that were told, each name with its number.
#[derive(Drop)]
pub(crate) struct Tally {
    counted: Vec<(Anomaly, u64)>,
}

impl Tally {
    pub(crate) fn new(alloc: Global) -> Tally {
        Tally {
            counted: Vec::new(alloc),
        }
    }

    /// Whether nothing was counted.
    pub(crate) fn is_empty(&self) -> bool {
        self.counted.is_empty()
    }

    /// Counts an anomaly.
    pub(crate) fn count(&mut self, anomaly: Anomaly) -> Result<(), NoMemory> {
        for one in self.counted.iter_mut() {
            if one.0 == anomaly {
                one.1 = one.1.saturating_add(1);
                return Ok(());
            }
        }
        self.counted.push((anomaly, 1))?;
        Ok(())
    }

    /// Puts the most frequent first.
    pub(crate) fn sort(&mut self) -> Result<(), NoMemory> {
        self.counted
            .sort_by_key(|one| u64::MAX.saturating_sub(one.1))?;
        Ok(())
    }

    /// Adds `12 lost updates, 3 write skews`.
    pub(crate) fn put_words(&self, text: &mut Text<'_>) {
        for (place, one) in self.counted.iter().enumerate() {
            let (anomaly, count) = *one;
            let pattern = if place == 0 { "@ @" } else { ", @ @" };
            let name = anomaly.counted(count);
            text.form(pattern, &[Hole::Number(count), Hole::Word(name)]);
        }
    }

    /// Puts the member `counts`: each name with its number.
    pub(crate) fn put_member(&self, out: &mut Lines) {
        out.put_key("counts");
        out.begin_array();
        for one in self.counted.iter() {
            let (anomaly, count) = *one;
            out.begin_object();
            out.put_text("anomaly", anomaly.name());
            out.put_number("count", count);
            out.end_object();
        }
        out.end_array();
    }
}
