//! A violation is repaired where a reading sees a newer writer than its source: by the hops of a walk that leads there.
use crate::facts::{Rule, Stop};
use crate::known::Known;
use crate::lists::add;
use crate::replay::{Replay, Violation};
use crate::sight::{Ground, Hop, Way};
use hek_rules::NoMemory;

impl Known<'_> {
    /// A reading sees a writer of its key that is after its source: by decisions on what the walk goes by, or else that writer is before
    /// the source.
    pub(crate) fn repair_seen(
        &mut self,
        u: usize,
        x: usize,
        violation: Violation,
        replay: &mut Replay,
    ) -> Result<(), Stop> {
        let reader = self.problem.reading(u).reader;
        if !self.is_present(reader) || !self.is_present(x) {
            return Ok(());
        }
        let hops = self.hops_seen(u, x, replay)?;
        if hops.is_empty() {
            return Ok(());
        }
        if !self.decide_hops(reader, hops.as_slice(), replay, violation)? {
            return Ok(());
        }
        if !self.decide_chosen(u, replay, violation)? {
            return Ok(());
        }
        self.precede_source(u, x, hops.as_slice())
    }

    /// The hops by which a reading sees another, if it still does.
    fn hops_seen(&self, u: usize, x: usize, replay: &mut Replay) -> Result<Vec<Hop>, NoMemory> {
        let low = self.place_in_order(x);
        let ground = Ground {
            known: self,
            sourcing: &replay.sourcing,
            lanes: &replay.lanes,
        };
        replay.walk.walk(ground, u, low, x)?;
        let mut hops = Vec::new(self.alloc);
        if replay.walk.has_seen(x) {
            replay.walk.hops_to(x, &mut hops)?;
        }
        Ok(hops)
    }

    /// Adds that a writer whom a reading sees by hops is before the source, unless it is that, or before it in the order.
    fn precede_source(&mut self, u: usize, x: usize, hops: &[Hop]) -> Result<(), Stop> {
        let Some(settled) = self.source(u) else {
            return Ok(());
        };
        let source = self.problem.transaction_of(settled.source);
        let its = self.nodes.commit_of(source);
        let others = self.nodes.commit(x);
        if source == Some(x) || self.is_in_order(others, its) {
            return Ok(());
        }
        let reader = self.problem.reading(u).reader;
        let from = self.hops.len();
        self.cite_paths(reader, hops)?;
        self.cite_ways(reader, hops)?;
        self.facts.cite_option(settled.fact)?;
        self.cite_taken(reader)?;
        let to = self.hops.len();
        let rule = Rule::Seen {
            reading: u,
            from,
            to,
        };
        self.force(others, its, rule, 0)
    }

    /// Decides that the source of a reading is the one that was chosen, if it isn't settled. Answers whether it is settled so.
    fn decide_chosen(
        &mut self,
        u: usize,
        replay: &Replay,
        violation: Violation,
    ) -> Result<bool, Stop> {
        let chosen = replay.sourcing.source(u);
        if let Some(settled) = self.source(u) {
            return Ok(Some(settled.source) == chosen);
        }
        match chosen {
            Some(source) if !self.is_excluded(u, source) => {
                self.decide_source(u, source, violation)?;
                Ok(true)
            }
            _ => Ok(false),
        }
    }

    /// Decides what the hops of a walk go by, where it isn't known. Answers whether all is so then.
    fn decide_hops(
        &mut self,
        reader: usize,
        hops: &[Hop],
        replay: &Replay,
        violation: Violation,
    ) -> Result<bool, Stop> {
        let mut seer = reader;
        for hop in hops {
            if !self.decide_hop(seer, *hop, replay, violation)? {
                return Ok(false);
            }
            seer = hop.to;
        }
        Ok(true)
    }

    /// Decides what a hop from a transaction goes by, where it isn't known. Answers whether it is so then.
    fn decide_hop(
        &mut self,
        seer: usize,
        hop: Hop,
        replay: &Replay,
        violation: Violation,
    ) -> Result<bool, Stop> {
        match hop.way {
            Way::Own(q) | Way::Brought(_, q) => self.decide_chosen(q, replay, violation),
            Way::Turn => Ok(true),
            Way::Writer(_) => {
                let first = self.nodes.commit(hop.to);
                let second = self.nodes.commit(seer);
                if self.has_path(first, second)? {
                    return Ok(true);
                }
                let is_forbidden = self.decide(first, second, violation)?;
                Ok(!is_forbidden)
            }
        }
    }

    /// Cites the paths that hops go by for the next fact, and notes the hops.
    fn cite_paths(&mut self, reader: usize, hops: &[Hop]) -> Result<(), NoMemory> {
        let mut seer = reader;
        for hop in hops {
            let path = self.cite_path_of(seer, *hop)?;
            add(&mut self.hops, Hop { path, ..*hop })?;
            seer = hop.to;
        }
        Ok(())
    }

    /// Cites the path that a hop from a transaction goes by, if it goes by one. Answers its length.
    fn cite_path_of(&mut self, seer: usize, hop: Hop) -> Result<usize, NoMemory> {
        let Way::Writer(_) = hop.way else {
            return Ok(0);
        };
        let first = self.nodes.commit(hop.to);
        let second = self.nodes.commit(seer);
        if !self.has_path_far(first, second)? {
            return Ok(0);
        }
        let length = self.graph.path.len();
        self.cite_path()?;
        Ok(length)
    }

    /// Cites what else hops go by for the next fact.
    fn cite_ways(&mut self, reader: usize, hops: &[Hop]) -> Result<(), NoMemory> {
        let mut seer = reader;
        for hop in hops {
            self.cite_way(seer, *hop)?;
            seer = hop.to;
        }
        Ok(())
    }

    /// Cites what a hop from a transaction goes by but a path.
    fn cite_way(&mut self, seer: usize, hop: Hop) -> Result<(), NoMemory> {
        match hop.way {
            Way::Own(q) => self.cite_settled(q),
            Way::Turn => {
                self.cite_taken(seer)?;
                self.cite_taken(hop.to)
            }
            Way::Brought(through, q) => {
                self.cite_taken(seer)?;
                self.cite_taken(through)?;
                self.cite_settled(q)
            }
            Way::Writer(_) => self.cite_taken(seer),
        }
    }

    /// Cites the fact that settles the source of a reading, if one does.
    fn cite_settled(&mut self, u: usize) -> Result<(), NoMemory> {
        match self.source(u) {
            Some(settled) => self.facts.cite_option(settled.fact),
            None => Ok(()),
        }
    }
}
