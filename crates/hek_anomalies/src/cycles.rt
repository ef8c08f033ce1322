//! The lightest cycles of links: of two transactions, and where there is none, of as few as there are.
use crate::alone::cause_of;
use crate::cause::{Cause, CycleEdge};
use crate::edges::{add_readings, counts, edge_of};
use crate::evident::Evident;
use crate::links::{Link, Links, NO_LINK, Shown, is_point, leads_to, transaction_of};
use crate::naming::{Weight, name_of, weight_of};
use hek_levels::Own;
use hek_levels_search::{Problem, add, at, part, put, reverse_from};
use hek_rules::NoMemory;
use std::alloc::Global;

/// How many links of one transaction before another are paired with those back.
const PAIRED: usize = 6;

/// How many links are gone along in one search, in which no longer cycle is looked for once a cycle was found.
const GONE_ALONG: usize = 5_000_000;

/// Along which links a cycle is looked for.
#[derive(Clone, Copy, PartialEq, Eq)]
enum Along {
    All,
    /// Those by which one is before another whatever is seen.
    Before,
    /// Those by which one sees another.
    Seen,
}

/// Whether a link is one of these.
fn is_along(along: Along, link: Link) -> bool {
    match along {
        Along::All => true,
        Along::Before => !link.plain,
        Along::Seen => !link.plain && link.seen,
    }
}

/// A cycle, as a part of a list of links.
#[derive(Clone, Copy)]
struct Round {
    weight: Weight,
    from: usize,
    to: usize,
}

/// How a point was reached: over which link, from which point, and over how many links from the start.
#[derive(Clone, Copy)]
struct Reached {
    turn: usize,
    link: usize,
    from: usize,
    length: usize,
}

/// A point that was not reached.
const NOT_REACHED: Reached = Reached {
    turn: 0,
    link: 0,
    from: 0,
    length: 0,
};

/// A search for a cycle: from a point on, to another, along some links, after a first one that is given or not.
#[derive(Clone, Copy)]
struct Quest {
    start: usize,
    goal: usize,
    along: Along,
    given: Option<usize>,
}

/// Cycles that were found.
#[derive(Drop)]
pub(crate) struct Cycles {
    alloc: Global,
    links: Links,
    /// The places of links, cycle after cycle.
    places: Vec<usize>,
    rounds: Vec<Round>,
    /// Where the links of each transaction begin.
    starts: Vec<usize>,
    reached: Vec<Reached>,
    queue: Vec<usize>,
    turn: usize,
    gone: usize,
}

impl Cycles {
    pub(crate) fn new(alloc: Global) -> Cycles {
        Cycles {
            alloc,
            links: Links::new(alloc),
            places: Vec::new(alloc),
            rounds: Vec::new(alloc),
            starts: Vec::new(alloc),
            reached: Vec::new(alloc),
            queue: Vec::new(alloc),
            turn: 0,
            gone: 0,
        }
    }

    /// Adds the anomalies that cycles of links show, the lightest first, each without the answers of those before it; without `all`
    /// the first.
    pub(crate) fn tell(
        &mut self,
        evident: &mut Evident,
        all: bool,
        causes: &mut Vec<Cause>,
    ) -> Result<(), NoMemory> {
        for _ in 0..evident.readings().saturating_add(1) {
            let before = causes.len();
            self.find(evident)?;
            self.rounds
                .sort_unstable_by_key(|round| (round.weight, round.from));
            self.tell_found(evident, all, causes)?;
            if causes.len() == before || !all {
                return Ok(());
            }
        }
        Ok(())
    }

    /// Finds cycles of two transactions, or longer ones where there is none.
    fn find(&mut self, evident: &Evident) -> Result<(), NoMemory> {
        let problem = evident.problem;
        self.links.fill(evident)?;
        self.places.clear();
        self.rounds.clear();
        self.find_pairs(evident)?;
        if !self.rounds.is_empty() {
            return Ok(());
        }
        self.prepare(problem.transactions())?;
        if problem.is_by_points {
            return self.find_longer(evident, Along::All);
        }
        self.find_longer(evident, Along::Before)?;
        let rules = problem.rules(0);
        if self.rounds.is_empty() && rules.causes && matches!(rules.own, Own::All) {
            self.gone = 0;
            return self.find_seen(evident);
        }
        Ok(())
    }

    fn link(&self, place: usize) -> Link {
        at(self.links.all.as_slice(), place, NO_LINK)
    }

    /// Adds the anomalies of the cycles that were found whose answers count.
    fn tell_found(
        &mut self,
        evident: &mut Evident,
        all: bool,
        causes: &mut Vec<Cause>,
    ) -> Result<(), NoMemory> {
        for place in 0..self.rounds.len() {
            let Some(round) = self.rounds.get(place).copied() else {
                break;
            };
            if self.is_whole(evident, round) {
                self.tell_round(evident, round, causes)?;
                if !all {
                    return Ok(());
                }
            }
        }
        Ok(())
    }

    /// Whether all answers of a cycle count.
    fn is_whole(&self, evident: &Evident, round: Round) -> bool {
        for place in part(self.places.as_slice(), round.from, round.to) {
            if !counts(evident, self.link(*place)) {
                return false;
            }
        }
        true
    }

    /// Adds the anomaly of a cycle, whose readings count no more.
    fn tell_round(
        &mut self,
        evident: &mut Evident,
        round: Round,
        causes: &mut Vec<Cause>,
    ) -> Result<(), NoMemory> {
        let cycle = self.edges_of(evident, round.from, round.to)?;
        let readings = self.readings_of(round)?;
        let anomaly = name_of(evident, cycle.as_slice());
        let mut cause = cause_of(self.alloc, anomaly, cycle);
        evident.show_taken(&mut cause)?;
        for place in readings.iter() {
            add(&mut cause.answers, evident.answer_of(*place))?;
            evident.forget(*place);
        }
        causes.push(cause)?;
        Ok(())
    }

    /// The edges of a cycle whose links stand from a place up to another, from its first transaction on.
    fn edges_of(
        &self,
        evident: &Evident,
        from: usize,
        to: usize,
    ) -> Result<Vec<CycleEdge>, NoMemory> {
        let mut cycle = Vec::new(self.alloc);
        let start = self.first_place(from, to);
        for (from, to) in [(start, to), (from, start)] {
            for place in part(self.places.as_slice(), from, to) {
                add(&mut cycle, edge_of(evident, self.link(*place)))?;
            }
        }
        Ok(cycle)
    }

    /// Where the link of the first transaction of a cycle stands.
    fn first_place(&self, from: usize, to: usize) -> usize {
        let mut start = from;
        let mut least = usize::MAX;
        for place in from..to {
            let link = self.link(at(self.places.as_slice(), place, 0));
            let (first, _) = link.ends();
            if first < least {
                least = first;
                start = place;
            }
        }
        start
    }

    /// The readings that a cycle is by, each once.
    fn readings_of(&self, round: Round) -> Result<Vec<usize>, NoMemory> {
        let mut readings = Vec::new(self.alloc);
        for place in part(self.places.as_slice(), round.from, round.to) {
            add_readings(self.link(*place), &mut readings)?;
        }
        readings.sort_unstable();
        readings.dedup();
        Ok(readings)
    }

    /// Where the links of one transaction before another stand.
    fn between(&self, first: usize, second: usize) -> (usize, usize) {
        let ends = (first, second);
        let links = &self.links.all;
        let from = links.partition_point(|link| link.ends() < ends);
        let to = links.partition_point(|link| link.ends() <= ends);
        (from, to)
    }

    /// Finds the cycles of two transactions.
    fn find_pairs(&mut self, evident: &Evident) -> Result<(), NoMemory> {
        let mut count: usize = 0;
        let mut before = (usize::MAX, usize::MAX);
        for place in 0..self.links.all.len() {
            let ends = self.link(place).ends();
            if ends != before {
                before = ends;
                count = 0;
            }
            count = count.saturating_add(1);
            if ends.0 < ends.1 && count <= PAIRED {
                self.pair(evident, place)?;
            }
        }
        Ok(())
    }

    /// Pairs a link with those back.
    fn pair(&mut self, evident: &Evident, place: usize) -> Result<(), NoMemory> {
        let link = self.link(place);
        let (first, second) = link.ends();
        let (from, to) = self.between(second, first);
        for other in from..to.min(from.saturating_add(PAIRED)) {
            let back = self.link(other);
            if is_excluded(evident.problem, link, back) {
                let start = self.places.len();
                add(&mut self.places, place)?;
                add(&mut self.places, other)?;
                self.add_round(evident, start)?;
            }
        }
        Ok(())
    }

    /// Adds the cycle whose links stand from a place on.
    fn add_round(&mut self, evident: &Evident, from: usize) -> Result<(), NoMemory> {
        let to = self.places.len();
        let cycle = self.edges_of(evident, from, to)?;
        let weight = weight_of(evident, cycle);
        add(&mut self.rounds, Round { weight, from, to })
    }

    /// Finds a cycle through each point along some links, where it has one that is not longer than those that were found.
    fn find_longer(&mut self, evident: &Evident, along: Along) -> Result<(), NoMemory> {
        let mut least = usize::MAX;
        for point in 0..evident.problem.transactions().saturating_mul(2) {
            if is_point(evident.problem, point) {
                let quest = Quest {
                    start: point,
                    goal: point,
                    along,
                    given: None,
                };
                least = self.find_by(evident, quest, least)?;
            }
        }
        Ok(())
    }

    /// Finds a cycle through each read that was written over, along links by which one sees another: first where the log has the one that
    /// wrote over it before the reader, since most logs have their transactions about in order.
    fn find_seen(&mut self, evident: &Evident) -> Result<(), NoMemory> {
        let mut least = usize::MAX;
        for is_turned in [true, false] {
            for place in 0..self.links.all.len() {
                let (reader, writer) = self.link(place).ends();
                if (writer < reader) == is_turned {
                    least = self.find_seen_over(evident, place, least)?;
                }
            }
        }
        Ok(())
    }

    /// Finds a cycle through a link, if it is a read that was written over, along links by which one sees another.
    fn find_seen_over(
        &mut self,
        evident: &Evident,
        place: usize,
        least: usize,
    ) -> Result<usize, NoMemory> {
        let link = self.link(place);
        if !link.plain {
            return Ok(least);
        }
        let quest = Quest {
            start: link.second,
            goal: link.first,
            along: Along::Seen,
            given: Some(place),
        };
        self.find_by(evident, quest, least)
    }

    /// Notes where the links of each transaction begin.
    fn prepare(&mut self, transactions: usize) -> Result<(), NoMemory> {
        self.starts.clear();
        self.reached.clear();
        self.reached
            .resize(transactions.saturating_mul(2), NOT_REACHED)?;
        self.turn = 0;
        self.gone = 0;
        for place in 0..self.links.all.len() {
            let (first, _) = self.link(place).ends();
            for _ in self.starts.len()..first.saturating_add(1) {
                add(&mut self.starts, place)?;
            }
        }
        let links = self.links.all.len();
        for _ in self.starts.len()..transactions.saturating_add(1) {
            add(&mut self.starts, links)?;
        }
        Ok(())
    }

    /// Where the links of a transaction stand.
    fn links_of(&self, t: usize) -> (usize, usize) {
        let starts = self.starts.as_slice();
        (at(starts, t, 0), at(starts, t.saturating_add(1), 0))
    }

    /// Finds a shortest cycle of a quest, of so many links at most. Answers the length of the shortest that was found.
    fn find_by(
        &mut self,
        evident: &Evident,
        quest: Quest,
        least: usize,
    ) -> Result<usize, NoMemory> {
        if self.gone > GONE_ALONG {
            return Ok(least);
        }
        self.turn = self.turn.saturating_add(1);
        self.queue.clear();
        add(&mut self.queue, quest.start)?;
        let first = Reached {
            turn: self.turn,
            ..NOT_REACHED
        };
        put(&mut self.reached, quest.start, first);
        for place in 0..self.reached.len() {
            if place >= self.queue.len() {
                break;
            }
            let point = at(self.queue.as_slice(), place, quest.start);
            let length = at(self.reached.as_slice(), point, NOT_REACHED).length;
            if length >= least {
                break;
            }
            if let Some(last) = self.go_on(point, quest)? {
                let whole = length.saturating_add(1);
                self.take_cycle(evident, quest, point, last, whole < least)?;
                return Ok(whole);
            }
        }
        Ok(least)
    }

    /// Goes along the links from a point. Answers the one that leads to the goal, if there is one.
    fn go_on(&mut self, point: usize, quest: Quest) -> Result<Option<usize>, NoMemory> {
        let (from, to) = self.links_of(transaction_of(point));
        let length = at(self.reached.as_slice(), point, NOT_REACHED).length;
        for place in from..to {
            self.gone = self.gone.saturating_add(1);
            let link = self.link(place);
            if !leads_to(point, link.first) || !is_along(quest.along, link) {
                continue;
            }
            if transaction_of(link.second) == transaction_of(quest.goal) {
                if leads_to(link.second, quest.goal) {
                    return Ok(Some(place));
                }
                continue;
            }
            if at(self.reached.as_slice(), link.second, NOT_REACHED).turn != self.turn {
                let reached = Reached {
                    turn: self.turn,
                    link: place,
                    from: point,
                    length: length.saturating_add(1),
                };
                put(&mut self.reached, link.second, reached);
                add(&mut self.queue, link.second)?;
            }
        }
        Ok(None)
    }

    /// Takes the cycle of a quest to a point, and over a link to the goal; where it is shorter than those before, in their place.
    fn take_cycle(
        &mut self,
        evident: &Evident,
        quest: Quest,
        point: usize,
        last: usize,
        is_shorter: bool,
    ) -> Result<(), NoMemory> {
        if is_shorter {
            self.rounds.clear();
            self.places.clear();
        }
        let from = self.places.len();
        add(&mut self.places, last)?;
        let mut at_point = point;
        for _ in 0..self.reached.len() {
            if at_point == quest.start {
                break;
            }
            let reached = at(self.reached.as_slice(), at_point, NOT_REACHED);
            add(&mut self.places, reached.link)?;
            at_point = reached.from;
        }
        if let Some(given) = quest.given {
            add(&mut self.places, given)?;
        }
        reverse_from(&mut self.places, from);
        self.add_round(evident, from)
    }
}

/// Whether no explanation has a link and one back: all cycles where each transaction reads what those left that committed before a point;
/// where transactions see something, also those of a read that was written over by one that need not be seen, and a link that is seen.
fn is_excluded(problem: &Problem, link: Link, back: Link) -> bool {
    if !leads_to(link.second, back.first) || !leads_to(back.second, link.first) {
        return false;
    }
    if problem.is_by_points {
        return true;
    }
    match (link.plain, back.plain) {
        (false, false) => true,
        (true, true) => false,
        (true, false) => is_seen_over(problem, link, back),
        (false, true) => is_seen_over(problem, back, link),
    }
}

/// Whether a link is seen where a read was written over: for transactions that see what their earlier reads did, by a read that is not
/// after that.
fn is_seen_over(problem: &Problem, over: Link, seen: Link) -> bool {
    let is_in_time = match problem.rules(0).own {
        Own::Nothing => false,
        Own::Earlier if seen.shown == Shown::Read => {
            problem.reading(seen.reading).operation <= problem.reading(over.reading).operation
        }
        Own::Earlier | Own::All => true,
    };
    seen.seen && is_in_time
}
