//! Events as objects, and the lines of steps.
use crate::lines::Lines;
use hek_rules::{Event, Reply, Schedule};

impl Lines {
    /// The name of an event's transaction, or null, and the event: its kind and its operands.
    pub fn put_event(&mut self, schedule: &Schedule, event: &Event) {
        self.put_maybe_name("txn", schedule, event.txn());
        self.put_key("event");
        self.begin_object();
        self.put_text("kind", event.kind().word());
        self.put_operands(event);
        self.end_object();
    }

    fn put_operands(&mut self, event: &Event) {
        match *event {
            Event::Read(_, key) | Event::Delete(_, key) => self.put_number("key", key),
            Event::Scan(_, bucket) => self.put_number("bucket", bucket),
            Event::Insert(_, key, value) | Event::Update(_, key, value) => {
                self.put_number("key", key);
                self.put_number("value", value);
            }
            Event::Begin(_)
            | Event::Finish(_)
            | Event::Precommit(_)
            | Event::Release(_)
            | Event::Commit(_)
            | Event::Fail(_)
            | Event::Stamp(_)
            | Event::End(_)
            | Event::Detect => (),
        }
    }

    /// Begins the line of a step, with its number, event and reply.
    pub fn begin_step(&mut self, schedule: &Schedule, number: u64, event: &Event, reply: &Reply) {
        self.begin_line();
        self.put_number("step", number);
        self.put_event(schedule, event);
        self.put_reply("reply", schedule, reply);
    }
}
