//! Replies as objects.
use crate::lines::Lines;
use hek_rules::{Refusal, Reply, Schedule};

impl Lines {
    /// A reply: its kind, as a trace has it, and its other words.
    pub fn put_reply(&mut self, name: &str, schedule: &Schedule, reply: &Reply) {
        self.put_key(name);
        self.begin_object();
        self.put_text("kind", reply.form().text());
        self.put_words(schedule, reply);
        self.end_object();
    }

    /// A reply, or null.
    pub fn put_maybe_reply(&mut self, name: &str, schedule: &Schedule, reply: Option<&Reply>) {
        match reply {
            Some(reply) => self.put_reply(name, schedule, reply),
            None => self.put_null(name),
        }
    }

    /// The words of a reply beside its kind.
    fn put_words(&mut self, schedule: &Schedule, reply: &Reply) {
        match reply {
            Reply::Rows(pairs) => self.put_rows(pairs.items()),
            Reply::ReleasedRead(version, writer) => {
                self.put_number("version", version.index());
                self.put_maybe_name("writer", schedule, *writer);
            }
            Reply::ReleasedWaiter(txn) => self.put_name("txn", schedule, *txn),
            Reply::Victim(txn, members) => {
                self.put_name("txn", schedule, *txn);
                self.put_names("cycle", schedule, members.items());
            }
            Reply::Aborted(cause) => self.put_text("cause", (*cause).word()),
            Reply::Refused(refusal) => self.put_refusal(*refusal),
            _ => {
                if let Some((name, number)) = number_of(reply) {
                    self.put_number(name, number);
                }
            }
        }
    }

    fn put_refusal(&mut self, refusal: Refusal) {
        self.put_number("code", refusal.number());
        self.put_text("refusal", refusal.name());
    }
}

/// The number of a reply that has nothing else beside its kind, with the number's name.
fn number_of(reply: &Reply) -> Option<(&'static str, u64)> {
    match reply {
        Reply::Began(time) | Reply::Precommitted(time) => Some(("time", time.number())),
        Reply::Found(value) => Some(("value", *value)),
        Reply::Waiting(count) | Reply::WaitingCommits(count) => Some(("count", *count)),
        Reply::ReleasedBucket(bucket) => Some(("bucket", *bucket)),
        Reply::StampedBegin(version) | Reply::StampedEnd(version) | Reply::Left(version) => {
            Some(("version", version.index()))
        }
        _ => None,
    }
}
