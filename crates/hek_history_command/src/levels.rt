//! At which levels a log holds, and which guarantees of sessions it has: a line for each, the strongest first.
use crate::choice::Extent;
use crate::order_lines::write_order;
use crate::report::Report;
use crate::verdict::{FAILS, HOLDS, NOT_KNOWN, worse};
use hek_ladder::{Finding, Ladder, Promise, Rung, Standing, ask, causes_of};
use hek_levels_search::add;
use hek_report::HekFault;
use std::io::Write;

impl<O: Write, W: Write> Report<'_, O, W> {
    /// Writes a line for each level as soon as it is known: of those that fail the weakest has the reason. Answers the exit status.
    pub(crate) fn say_levels<'a>(&mut self) -> Result<u8, HekFault<'a>> {
        let mut ladder = Ladder::new(self.scene.alloc);
        let mut waiting: Vec<Rung> = Vec::new(self.scene.alloc);
        let mut status = HOLDS;
        for _ in Promise::LEVELS {
            let Some(rung) = ladder.next(&self.scene)? else {
                break;
            };
            match rung.standing {
                Standing::Fails => {
                    for stronger in waiting.iter() {
                        self.say_level(stronger.promise, Standing::Fails, None)?;
                    }
                    waiting.clear();
                    status = FAILS;
                }
                Standing::Unknown => status = worse(status, NOT_KNOWN),
                Standing::Holds => {
                    self.say_waiting(&ladder, waiting.as_slice())?;
                    waiting.clear();
                    self.say_level(rung.promise, Standing::Holds, None)?;
                    continue;
                }
            }
            add(&mut waiting, rung)?;
        }
        self.say_waiting(&ladder, waiting.as_slice())?;
        if let (Some(file), Some(shown)) = (self.order_out.as_mut(), ladder.shown()) {
            write_order(&self.scene, ladder.held().first().copied(), shown, file)?;
        }
        if self.choice.extent != Extent::First && status == FAILS {
            return self.say_all(None, ladder.held());
        }
        Ok(status)
    }

    /// Writes the lines of levels below which none fails: the one that does with the reason, and those that are unknown.
    fn say_waiting<'a>(&mut self, ladder: &Ladder, waiting: &[Rung]) -> Result<(), HekFault<'a>> {
        for rung in waiting {
            let causes = match (rung.standing, ladder.failed()) {
                (Standing::Fails, Some((level, found))) => {
                    causes_of(&self.scene, level, found, false)?
                }
                _ => Vec::new(self.scene.alloc),
            };
            self.say_level(rung.promise, rung.standing, causes.first())?;
        }
        Ok(())
    }

    /// Writes a line for each guarantee of sessions. Answers the exit status.
    pub(crate) fn say_guarantees<'a>(&mut self) -> Result<u8, HekFault<'a>> {
        let mut status = HOLDS;
        for promise in Promise::GUARANTEES {
            let found = ask(&self.scene, promise)?;
            match &found {
                Finding::Holds(_) => self.say_level(promise, Standing::Holds, None)?,
                Finding::Unknown(_) => {
                    self.say_level(promise, Standing::Unknown, None)?;
                    status = worse(status, NOT_KNOWN);
                }
                Finding::Fails(_) | Finding::Lost(_, _) => {
                    let causes = causes_of(&self.scene, promise, &found, false)?;
                    self.say_level(promise, Standing::Fails, causes.first())?;
                    status = FAILS;
                }
            }
        }
        Ok(status)
    }
}
