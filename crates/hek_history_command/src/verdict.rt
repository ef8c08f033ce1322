//! Whether a log is serializable, or holds at one level.
use crate::choice::Extent;
use crate::counts::counts_of;
use crate::order_lines::write_order;
use crate::report::{Answer, Report};
use hek_ladder::{Finding, Ladder, Promise, Standing, ask, causes_of};
use hek_levels_search::{Progress, Shown};
use hek_report::HekFault;
use std::io::Write;

/// The exit status of a log that is what is asked, of one that isn't, and of one of which nothing is known.
pub(crate) const HOLDS: u8 = 0;

pub(crate) const FAILS: u8 = 1;

pub(crate) const NOT_KNOWN: u8 = 3;

/// The status of two: that something fails if it does, or else that something isn't known.
pub(crate) fn worse(first: u8, second: u8) -> u8 {
    if first == FAILS || second == FAILS {
        FAILS
    } else {
        first.max(second)
    }
}

/// Nothing is known of how far a search came.
const NOWHERE: Progress = Progress {
    conflicts: 0,
    violations: 0,
};

impl<O: Write, W: Write> Report<'_, O, W> {
    /// Writes that what is asked holds, and the order that shows it. Answers the exit status.
    fn say_held<'a>(
        &mut self,
        promise: Option<Promise>,
        shown: &Shown,
    ) -> Result<u8, HekFault<'a>> {
        if let Some(file) = self.order_out.as_mut() {
            write_order(&self.scene, promise, shown, file)?;
        }
        let counts = counts_of(&self.scene, shown)?;
        let mut answer = Answer::verdict(promise, Standing::Holds);
        answer.counts = Some(counts);
        if promise.is_none() && counts.elsewhere.unwrap_or(0) > 0 {
            answer.word = "serializable in another order";
        }
        self.say(answer)?;
        Ok(HOLDS)
    }

    /// Writes that nothing is known of what is asked, and at which levels the log holds. Answers the exit status.
    fn say_unknown<'a>(
        &mut self,
        promise: Option<Promise>,
        progress: Progress,
        held: &[Promise],
    ) -> Result<u8, HekFault<'a>> {
        self.say(Answer {
            held,
            progress: Some(progress),
            ..Answer::verdict(promise, Standing::Unknown)
        })?;
        Ok(NOT_KNOWN)
    }

    /// Writes what keeps a log from what is asked, as it was found at a level. Answers the exit status.
    fn say_failed<'a>(
        &mut self,
        promise: Option<Promise>,
        ladder: &Ladder,
        held: &[Promise],
    ) -> Result<u8, HekFault<'a>> {
        if let Some((level, found)) = ladder.failed() {
            let causes = causes_of(&self.scene, level, found, false)?;
            if let Some(cause) = causes.first() {
                self.say(Answer::failed(promise, level, cause, held))?;
            }
        }
        Ok(FAILS)
    }

    /// Writes whether a log is serializable; if not, why, and the strongest levels at which it holds. Answers the exit status.
    pub(crate) fn say_verdict<'a>(&mut self) -> Result<u8, HekFault<'a>> {
        let mut ladder = Ladder::new(self.scene.alloc);
        for _ in Promise::LEVELS {
            let _rung = ladder.next(&self.scene)?;
            if ladder.held().contains(&Promise::Serializable) {
                break;
            }
        }
        if ladder.held().contains(&Promise::Serializable) {
            if let Some(shown) = ladder.shown() {
                return self.say_held(None, shown);
            }
        }
        if ladder.failed().is_none() {
            return self.say_unknown(None, NOWHERE, ladder.held());
        }
        if self.choice.extent != Extent::First {
            return self.say_all(None, ladder.held());
        }
        self.say_failed(None, &ladder, ladder.held())
    }

    /// Writes whether a log holds at a level, or has a guarantee. Answers the exit status.
    pub(crate) fn say_one<'a>(&mut self, promise: Promise) -> Result<u8, HekFault<'a>> {
        match ask(&self.scene, promise)? {
            Finding::Holds(shown) => self.say_held(Some(promise), &shown),
            Finding::Unknown(progress) => self.say_unknown(Some(promise), progress, &[]),
            found => self.say_why(promise, found),
        }
    }

    /// Writes what keeps a log from a level, by its name at the weakest level that fails with it, or all that does. Answers the exit status.
    fn say_why<'a>(&mut self, promise: Promise, found: Finding) -> Result<u8, HekFault<'a>> {
        if self.choice.extent != Extent::First {
            return self.say_all(Some(promise), &[]);
        }
        let mut ladder = Ladder::below(self.scene.alloc, promise, found);
        for _ in Promise::LEVELS {
            match ladder.next(&self.scene)? {
                Some(rung) if rung.standing == Standing::Fails => {}
                _ => break,
            }
        }
        self.say_failed(Some(promise), &ladder, &[])
    }
}
