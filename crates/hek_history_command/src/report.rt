//! What is written of a log: each answer as text or as an object of JSON, as soon as it is known.
use crate::choice::{Choice, Extent};
use crate::counted::{Rest, Tally};
use crate::counts::Counts;
use crate::numbers::Numbers;
use crate::{json, text};
use hek_anomalies::Cause;
use hek_ladder::{Promise, Scene, Standing};
use hek_levels_search::Progress;
use hek_report::{HekFault, Lines, Printing, Text, send, send_lines};
use std::io::Write;

/// What an answer is.
#[derive(Clone, Copy, PartialEq, Eq)]
pub(crate) enum Kind {
    /// On what is asked.
    Verdict,
    /// On one of several levels or guarantees.
    Level,
    /// One of several anomalies.
    Anomaly,
}

/// Something that is said of a log.
#[derive(Clone, Copy)]
pub(crate) struct Answer<'a> {
    pub kind: Kind,
    /// How what is asked stands; the level at which one of several anomalies is excluded.
    pub word: &'static str,
    /// The level or guarantee, where that is said. Otherwise it is whether the log is serializable.
    pub promise: Option<Promise>,
    /// What keeps the log from it, and the level at which its name was found.
    pub cause: Option<&'a Cause>,
    pub excluded: Option<Promise>,
    /// The strongest levels that hold.
    pub held: &'a [Promise],
    /// What is counted of the order that was found.
    pub counts: Option<Counts>,
    /// How far a search came that gave up.
    pub progress: Option<Progress>,
}

impl<'a> Answer<'a> {
    /// An answer with a word alone.
    pub(crate) fn new(kind: Kind, promise: Option<Promise>, word: &'static str) -> Answer<'a> {
        Answer {
            kind,
            word,
            promise,
            cause: None,
            excluded: None,
            held: &[],
            counts: None,
            progress: None,
        }
    }

    /// A verdict on what is asked.
    pub(crate) fn verdict(promise: Option<Promise>, standing: Standing) -> Answer<'a> {
        Answer::new(Kind::Verdict, promise, word_of(standing, promise))
    }

    /// What keeps the log from what is asked.
    pub(crate) fn failed(
        promise: Option<Promise>,
        level: Promise,
        cause: &'a Cause,
        held: &'a [Promise],
    ) -> Answer<'a> {
        Answer {
            cause: Some(cause),
            excluded: Some(level),
            held,
            ..Answer::verdict(promise, Standing::Fails)
        }
    }

    /// One of several anomalies.
    pub(crate) fn anomaly(level: Promise, cause: &'a Cause) -> Answer<'a> {
        Answer {
            cause: Some(cause),
            excluded: Some(level),
            ..Answer::new(Kind::Anomaly, None, level.word())
        }
    }
}

/// The word of how a level or guarantee stands, or whether a log is serializable.
fn word_of(standing: Standing, promise: Option<Promise>) -> &'static str {
    match (standing, promise) {
        (Standing::Unknown, _) => "unknown",
        (Standing::Holds, None) => "serializable",
        (Standing::Fails, None) => "not serializable",
        (Standing::Holds, Some(Promise::Own)) => "right",
        (Standing::Fails, Some(Promise::Own)) => "wrong",
        (Standing::Holds, Some(_)) => "holds",
        (Standing::Fails, Some(_)) => "fails",
    }
}

/// A log that is judged, what is asked of it, and where the answers go, and the order that was found if that is wanted.
#[derive(Drop)]
pub(crate) struct Report<'o, O, W> {
    pub scene: Scene,
    pub choice: Choice,
    pub order_out: &'o mut Option<O>,
    pub out: &'o mut W,
    pub numbers: Numbers,
}

impl<O: Write, W: Write> Report<'_, O, W> {
    pub(crate) fn is_text(&self) -> bool {
        self.choice.printing == Printing::Text
    }

    /// Writes an answer.
    pub(crate) fn say<'a>(&mut self, answer: Answer<'_>) -> Result<(), HekFault<'a>> {
        if self.is_text() {
            let mut lines = Vec::new(self.scene.alloc);
            let mut words = Text::after(&mut lines);
            text::put_answer(&self.scene, answer, &mut words);
            words.done()?;
            return send(&mut lines, self.out);
        }
        let mut objects = Lines::new(self.scene.alloc);
        json::put_answer(&self.scene, answer, &mut objects);
        send_lines(&mut objects, self.out)
    }

    /// Writes how a level stands, with what keeps the log from it if that is told.
    pub(crate) fn say_level<'a>(
        &mut self,
        promise: Promise,
        standing: Standing,
        cause: Option<&Cause>,
    ) -> Result<(), HekFault<'a>> {
        let word = word_of(standing, Some(promise));
        let answer = Answer::new(Kind::Level, Some(promise), word);
        self.say(Answer { cause, ..answer })
    }

    /// Writes how many anomalies there are of each name, what is said of the rest, and at which levels the whole log holds.
    pub(crate) fn say_counts<'a>(
        &mut self,
        asked: Option<Promise>,
        tally: &mut Tally,
        rest: Rest,
        held: &[Promise],
    ) -> Result<(), HekFault<'a>> {
        tally.sort()?;
        if self.is_text() {
            let alone = self.choice.extent == Extent::Counts;
            let front = alone.then_some(Answer::verdict(asked, Standing::Fails));
            let mut lines = Vec::new(self.scene.alloc);
            let mut words = Text::after(&mut lines);
            text::put_counts(front, tally, rest, &mut words);
            text::put_held(held, &mut words);
            words.done()?;
            return send(&mut lines, self.out);
        }
        let mut objects = Lines::new(self.scene.alloc);
        json::put_counts(self.scene.binding, tally, rest, &mut objects);
        send_lines(&mut objects, self.out)
    }
}
