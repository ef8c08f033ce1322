//! All anomalies of a log, each without the answers on which those before it rest: first those that a weak level excludes.
use crate::choice::Extent;
use crate::counted::{Rest, Tally};
use crate::forgetting::forget_cause;
use crate::report::{Answer, Report};
use crate::verdict::FAILS;
use hek_anomalies::Cause;
use hek_ladder::{Finding, Promise, ask, causes_of};
use hek_report::HekFault;
use std::io::Write;

/// Whether a level is one that another implies, or that itself.
fn is_up_to(level: Promise, promise: Promise) -> bool {
    let mut is_reached = false;
    for one in Promise::LEVELS {
        is_reached = is_reached || one == promise;
        if one == level {
            return is_reached && promise.implies(level);
        }
    }
    false
}

impl<O: Write, W: Write> Report<'_, O, W> {
    /// Writes all anomalies up to the level that is asked for, or else serializable, and how many there are of each name. Answers the exit
    /// status.
    pub(crate) fn say_all<'a>(
        &mut self,
        asked: Option<Promise>,
        held: &[Promise],
    ) -> Result<u8, HekFault<'a>> {
        let promise = asked.unwrap_or(Promise::Serializable);
        let mut tally = Tally::new(self.scene.alloc);
        let mut rest = Rest::Holds;
        for level in Promise::LEVELS.iter().rev() {
            if is_up_to(*level, promise) {
                rest = self.say_level_anomalies(asked, *level, held, &mut tally)?;
            }
        }
        if !Promise::LEVELS.contains(&promise) {
            rest = self.say_level_anomalies(asked, promise, held, &mut tally)?;
        }
        if rest == Rest::Holds && asked.is_none() {
            rest = Rest::Serializable;
        }
        self.say_counts(asked, &mut tally, rest, held)?;
        Ok(FAILS)
    }

    /// Writes what keeps the rest of a log from a level, and forgets the answers on which that rests. Answers what is left.
    fn say_level_anomalies<'a>(
        &mut self,
        asked: Option<Promise>,
        level: Promise,
        held: &[Promise],
        tally: &mut Tally,
    ) -> Result<Rest, HekFault<'a>> {
        for _ in 0..usize::MAX {
            let found = ask(&self.scene, level)?;
            match &found {
                Finding::Holds(_) => return Ok(Rest::Holds),
                Finding::Unknown(_) => return Ok(Rest::Unknown),
                Finding::Fails(_) | Finding::Lost(_, _) => {}
            }
            let mut causes = causes_of(&self.scene, level, &found, true)?;
            for cause in causes.iter_mut() {
                self.numbers.restore(cause);
            }
            for cause in causes.iter() {
                if self.choice.extent != Extent::Counts {
                    let answer = self.anomaly_of(asked, level, cause, held, tally);
                    self.say(answer)?;
                }
                tally.count(cause.anomaly)?;
                forget_cause(&mut self.scene, &mut self.numbers, cause)?;
            }
            self.scene.renew()?;
        }
        Ok(Rest::Unknown)
    }

    /// What is said of an anomaly: of the first behind the words of the verdict; objects of JSON say with it at which levels the log holds.
    fn anomaly_of<'c>(
        &self,
        asked: Option<Promise>,
        level: Promise,
        cause: &'c Cause,
        held: &'c [Promise],
        tally: &Tally,
    ) -> Answer<'c> {
        if !tally.is_empty() {
            return Answer::anomaly(level, cause);
        }
        let said: &[Promise] = if self.is_text() { &[] } else { held };
        Answer::failed(asked, level, cause, said)
    }
}
