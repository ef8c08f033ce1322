//! A conflict is resolved: the decisions on which it rests are found, and the contrary of the last of them is added.
use crate::facts::{Rule, Says, Stop};
use crate::known::Known;
use crate::lists::{add, at, put};
use hek_rules::NoMemory;

impl Known<'_> {
    /// Finds the decisions on which a conflict rests.
    fn find_decisions(&mut self, conflict: usize) -> Result<(), NoMemory> {
        self.rested_on.clear();
        self.is_seen.clear();
        self.is_seen.resize(self.facts.len(), false)?;
        add(&mut self.todo, conflict)?;
        for _ in 0..usize::MAX {
            let Some(place) = self.todo.pop() else {
                break;
            };
            self.look_at(place)?;
        }
        Ok(())
    }

    /// Looks at a fact on which a conflict rests, if it rests on decisions and wasn't looked at before.
    fn look_at(&mut self, place: usize) -> Result<(), NoMemory> {
        let fact = self.facts.get(place);
        if fact.level == 0 || at(self.is_seen.as_slice(), place, true) {
            return Ok(());
        }
        put(&mut self.is_seen, place, true);
        if let Rule::Assumed = fact.rule {
            add(&mut self.rested_on, place)?;
        }
        self.todo.extend_from_slice(self.facts.premises(place))?;
        Ok(())
    }

    /// The decision of the highest level on which the conflict rests.
    fn last_decision(&self) -> Option<usize> {
        let mut best = None;
        let mut level = 0;
        for fact in &self.rested_on {
            let its = self.facts.get(*fact).level;
            if its > level {
                best = Some(*fact);
                level = its;
            }
        }
        best
    }

    /// Cites the other decisions on which a conflict rests than one. Answers the highest level of these and of what the one rests on.
    fn cite_others(&mut self, decision: usize) -> Result<usize, NoMemory> {
        let mut level = 0;
        for premise in self.facts.premises(decision) {
            level = level.max(self.facts.get(*premise).level);
        }
        for other in &self.rested_on {
            if *other != decision {
                level = level.max(self.facts.get(*other).level);
                self.facts.cite(*other)?;
            }
        }
        Ok(level)
    }

    /// Says the contrary of a decision, which came to a conflict together with others, at the level of these.
    fn turn(&mut self, decision: usize, conflict: usize) -> Result<(), Stop> {
        let level = self.cite_others(decision)?;
        self.conflicts = self.conflicts.saturating_add(1);
        self.undo(level)?;
        let rule = Rule::Case { decision, conflict };
        match self.facts.get(decision).says {
            Says::Before { first, second } => self.force(second, first, rule, level),
            Says::Source { reading, source } => Ok(self.exclude(reading, source, rule, level)?),
            Says::Not { .. } | Says::Taken(_) | Says::Contradiction => Ok(()),
        }
    }

    /// Resolves a conflict. Answers the one that rests on no decision, if it comes to that: then there is no explanation.
    pub(crate) fn resolve(&mut self, conflict: usize) -> Result<Option<usize>, NoMemory> {
        let mut current = conflict;
        for _ in 0..usize::MAX {
            self.find_decisions(current)?;
            let Some(last) = self.last_decision() else {
                break;
            };
            match self.turn(last, current) {
                Ok(()) => return Ok(None),
                Err(Stop::Conflict(next)) => current = next,
                Err(Stop::NoMemory) => return Err(NoMemory),
            }
        }
        Ok(Some(current))
    }
}
