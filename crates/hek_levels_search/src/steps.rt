//! The certificate of a conflict: the facts on which it rests as steps, each once in the case that it belongs to.
use crate::facts::{Rule, Says};
use crate::known::Known;
use crate::lists::{add, at, list_at, put};
use hek_levels_refutation::Step;
use hek_rules::NoMemory;

/// What is left to do, the next one last.
#[derive(Clone, Copy)]
enum Task {
    /// A fact is to be said, with all on which it rests.
    Say(usize),
    /// All on which a fact rests has been said.
    Build(usize),
    /// A case begins, by its decision.
    Open(usize),
    /// The case of a fact ends by a conflict.
    Close { fact: usize, conflict: usize },
}

/// A case that is open: the place of its assumption's claim, and how many facts were said before it.
#[derive(Clone, Copy)]
struct Case {
    place: usize,
    mark: usize,
}

/// The steps so far, and where each claim is.
#[derive(Drop)]
pub(crate) struct Writing<'a, 'b> {
    pub known: &'a Known<'b>,
    pub steps: Vec<Step>,
    /// How many claims there are.
    pub height: usize,
    /// The place of the claim of each fact that was said, and those facts in order.
    said: Vec<Option<usize>>,
    said_last: Vec<usize>,
    /// The place of the claim of the only source of each reading that was narrowed, and those readings in order.
    narrowed: Vec<Option<usize>>,
    narrowed_last: Vec<usize>,
    cases: Vec<Case>,
    tasks: Vec<Task>,
    /// The decisions on which each fact rests.
    rests: Vec<Vec<usize>>,
    /// The turn in which each fact was last seen, and what is to be looked at in this turn.
    seen: Vec<usize>,
    turn: usize,
    todo: Vec<usize>,
}

impl Writing<'_, '_> {
    /// The place of a claim that has been said.
    pub(crate) fn place_of(&self, fact: usize) -> Option<usize> {
        at(self.said.as_slice(), fact, None)
    }

    /// Notes the place of a fact's claim.
    pub(crate) fn remember(&mut self, fact: usize, place: usize) -> Result<(), NoMemory> {
        put(&mut self.said, fact, Some(place));
        add(&mut self.said_last, fact)
    }

    /// The place of the claim of the only source of a reading, if it has been narrowed.
    pub(crate) fn narrowed(&self, reading: usize) -> Option<usize> {
        at(self.narrowed.as_slice(), reading, None)
    }

    /// Notes the place of the claim of the only source of a reading.
    pub(crate) fn note_narrowed(&mut self, reading: usize, place: usize) -> Result<(), NoMemory> {
        put(&mut self.narrowed, reading, Some(place));
        add(&mut self.narrowed_last, reading)
    }

    /// The claims of only sources from a place on are no more.
    pub(crate) fn forget_from(&mut self, place: usize) {
        for _ in 0..self.narrowed_last.len() {
            let Some(reading) = self.narrowed_last.pop() else {
                return;
            };
            match self.narrowed(reading) {
                Some(there) if there < place => {
                    // it was just taken from the list, which has room for it
                    let _ = self.narrowed_last.push(reading);
                    return;
                }
                _ => put(&mut self.narrowed, reading, None),
            }
        }
    }

    /// Marks the facts that a conflict needs, in the conflicts of their cases too.
    fn mark_needed(&mut self, conflict: usize) -> Result<(), NoMemory> {
        add(&mut self.todo, conflict)?;
        for _ in 0..usize::MAX {
            let Some(place) = self.todo.pop() else {
                break;
            };
            if at(self.seen.as_slice(), place, 1) == 0 {
                put(&mut self.seen, place, 1);
                self.need_premises(place)?;
            }
        }
        Ok(())
    }

    /// Adds what is needed for a fact to what is to be marked.
    fn need_premises(&mut self, place: usize) -> Result<(), NoMemory> {
        self.todo
            .extend_from_slice(self.known.facts.premises(place))?;
        if let Rule::Case { decision, conflict } = self.known.facts.get(place).rule {
            add(&mut self.todo, decision)?;
            return add(&mut self.todo, conflict);
        }
        Ok(())
    }

    /// Finds the decisions on which each fact rests that is needed.
    fn find_rests(&mut self) -> Result<(), NoMemory> {
        for place in 0..self.known.facts.len() {
            if self.known.facts.get(place).level > 0 && at(self.seen.as_slice(), place, 0) > 0 {
                self.gather_rests(place)?;
            }
        }
        self.todo.clear();
        Ok(())
    }

    /// Finds the decisions on which a fact rests, by those of its premises.
    fn gather_rests(&mut self, place: usize) -> Result<(), NoMemory> {
        self.todo.clear();
        if let Rule::Assumed = self.known.facts.get(place).rule {
            add(&mut self.todo, place)?;
        }
        for premise in self.known.facts.premises(place) {
            self.todo
                .extend_from_slice(list_at(self.rests.as_slice(), *premise))?;
        }
        self.todo.sort_unstable();
        self.todo.dedup();
        if let Some(there) = self.rests.get_mut(place) {
            there.extend_from_slice(self.todo.as_slice())?;
        }
        Ok(())
    }

    /// Says a fact, or adds the tasks that come before.
    fn say(&mut self, place: usize) -> Result<(), NoMemory> {
        if self.place_of(place).is_some() {
            return Ok(());
        }
        match self.known.facts.get(place).rule {
            Rule::Assumed => Ok(()),
            Rule::Case { decision, conflict } => self.begin_case(place, decision, conflict),
            _ => {
                add(&mut self.tasks, Task::Build(place))?;
                self.say_premises(place)
            }
        }
    }

    /// Adds the tasks to say the facts on which another rests.
    fn say_premises(&mut self, place: usize) -> Result<(), NoMemory> {
        for premise in self.known.facts.premises(place) {
            if self.place_of(*premise).is_none() {
                add(&mut self.tasks, Task::Say(*premise))?;
            }
        }
        Ok(())
    }

    /// Adds the tasks of a case: what rests on no assumption in it, the assumption, what the conflict rests on, and the end.
    fn begin_case(
        &mut self,
        fact: usize,
        decision: usize,
        conflict: usize,
    ) -> Result<(), NoMemory> {
        add(&mut self.tasks, Task::Close { fact, conflict })?;
        self.say_premises(conflict)?;
        add(&mut self.tasks, Task::Open(decision))?;
        self.say_outer(conflict)
    }

    /// Whether all assumptions on which a fact rests are those of open cases.
    fn is_outer(&self, fact: usize) -> bool {
        for decision in list_at(self.rests.as_slice(), fact) {
            if self.place_of(*decision).is_none() {
                return false;
            }
        }
        true
    }

    /// Of the facts on which a conflict rests, adds the tasks to say those that need no further assumption.
    fn say_outer(&mut self, conflict: usize) -> Result<(), NoMemory> {
        self.turn = self.turn.saturating_add(1);
        self.todo
            .extend_from_slice(self.known.facts.premises(conflict))?;
        for _ in 0..usize::MAX {
            let Some(place) = self.todo.pop() else {
                break;
            };
            if at(self.seen.as_slice(), place, self.turn) != self.turn {
                put(&mut self.seen, place, self.turn);
                self.say_if_outer(place)?;
            }
        }
        Ok(())
    }

    /// Adds the task to say a fact if it needs no further assumption, or else looks at those on which it rests.
    fn say_if_outer(&mut self, place: usize) -> Result<(), NoMemory> {
        if self.is_outer(place) {
            return add(&mut self.tasks, Task::Say(place));
        }
        self.todo
            .extend_from_slice(self.known.facts.premises(place))?;
        Ok(())
    }

    /// Begins a case by its assumption.
    fn open_case(&mut self, decision: usize) -> Result<(), NoMemory> {
        let Some(step) = self.assumption(decision) else {
            return Ok(());
        };
        let place = self.put(step)?;
        let case = Case {
            place,
            mark: self.said_last.len(),
        };
        add(&mut self.cases, case)?;
        self.remember(decision, place)
    }

    /// Ends the innermost case by a conflict: its contrary is what the fact says.
    fn close(&mut self, fact: usize, conflict: usize) -> Result<(), NoMemory> {
        self.conclude(conflict)?;
        let Some(case) = self.cases.pop() else {
            return Ok(());
        };
        for place in case.mark..self.said_last.len() {
            let said = at(self.said_last.as_slice(), place, usize::MAX);
            put(&mut self.said, said, None);
        }
        self.said_last.truncate(case.mark);
        self.forget_from(case.place);
        self.height = case.place.saturating_add(1);
        self.remember(fact, case.place)
    }

    /// Builds a fact, if it wasn't said meanwhile.
    fn build_once(&mut self, fact: usize) -> Result<(), NoMemory> {
        if self.place_of(fact).is_some() {
            return Ok(());
        }
        self.build(fact)
    }

    /// Writes the certificate of a conflict that rests on no decision.
    fn write(&mut self, conflict: usize) -> Result<(), NoMemory> {
        for _ in 0..self.known.facts.len() {
            add(&mut self.said, None)?;
            add(&mut self.seen, 0)?;
            self.rests.push(Vec::new(self.known.alloc))?;
        }
        for _ in 0..self.known.problem.readings.len() {
            add(&mut self.narrowed, None)?;
        }
        self.mark_needed(conflict)?;
        self.find_rests()?;
        self.say_premises(conflict)?;
        self.work()?;
        self.conclude(conflict)
    }

    /// Does the tasks.
    fn work(&mut self) -> Result<(), NoMemory> {
        for _ in 0..usize::MAX {
            let Some(task) = self.tasks.pop() else {
                break;
            };
            match task {
                Task::Say(fact) => self.say(fact)?,
                Task::Build(fact) => self.build_once(fact)?,
                Task::Open(decision) => self.open_case(decision)?,
                Task::Close { fact, conflict } => self.close(fact, conflict)?,
            }
        }
        Ok(())
    }
}

/// The certificate of a conflict that rests on no decision.
pub(crate) fn steps_of(known: &Known, conflict: usize) -> Result<Vec<Step>, NoMemory> {
    let alloc = known.alloc;
    let mut writing = Writing {
        known,
        steps: Vec::new(alloc),
        height: 0,
        said: Vec::new(alloc),
        said_last: Vec::new(alloc),
        narrowed: Vec::new(alloc),
        narrowed_last: Vec::new(alloc),
        cases: Vec::new(alloc),
        tasks: Vec::new(alloc),
        rests: Vec::new(alloc),
        seen: Vec::new(alloc),
        turn: 1,
        todo: Vec::new(alloc),
    };
    writing.write(conflict)?;
    Ok(std::mem::replace(&mut writing.steps, Vec::new(alloc)))
}
