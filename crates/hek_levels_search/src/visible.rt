//! The claims of whom readings see: by paths, and by hops.
use crate::claims::{Arrival, NOWHERE};
use crate::facts::Rule;
use crate::sight::{Hop, Way};
use crate::steps::Writing;
use hek_levels::Place;
use hek_levels_refutation::{Link, Step};
use hek_rules::NoMemory;

/// Where a hop of a reading starts: at its reader, or at another whom it sees by a claim.
#[derive(Clone, Copy)]
struct Start {
    place: Place,
    seer: usize,
    visible: Option<usize>,
}

impl Writing<'_, '_> {
    /// Adds the claim that a reading sees whom a path comes from that arrives where its reader begins.
    pub(crate) fn see(&mut self, arrival: Arrival, reading: usize) -> Result<usize, NoMemory> {
        let place = self.place(reading);
        let t = self.reader(reading);
        match self.known.facts.get(arrival.fact).rule {
            Rule::Read(own) => {
                let source = self.source(arrival.fact, own)?;
                self.put(Step::Own { source, place })
            }
            Rule::Winner { first, key, .. } => {
                let link = Link::Writers {
                    other: first,
                    key: self.key(key),
                    before: self.claim(arrival.fact),
                };
                let taken = self.taken(arrival.fact, t);
                self.put(Step::Linked {
                    reader: t,
                    place,
                    taken,
                    link,
                })
            }
            Rule::Leave(_) => {
                let before = self.turn_claim(arrival)?;
                let first = self.known.facts.ends(arrival.entered).0;
                let other = self.transaction(first);
                let link = Link::Turn { other, before };
                let taken = self.taken(arrival.fact, t);
                self.put(Step::Linked {
                    reader: t,
                    place,
                    taken,
                    link,
                })
            }
            _ => Ok(NOWHERE),
        }
    }

    /// Adds the claim that a reading sees the transaction from which the path leads on which a fact rests.
    pub(crate) fn visible(&mut self, fact: usize, reading: usize) -> Result<usize, NoMemory> {
        let count = self.known.facts.path_len(fact);
        self.visible_from(fact, 0, count, reading)
    }

    /// Adds the claim that a reading sees the transaction from which a path leads to where its reader begins. The path is the premises
    /// of a fact from a place up to another.
    pub(crate) fn visible_from(
        &mut self,
        fact: usize,
        from: usize,
        to: usize,
        reading: usize,
    ) -> Result<usize, NoMemory> {
        let t = self.reader(reading);
        let last = self.known.facts.premise(fact, to.saturating_sub(1));
        let end = self.known.facts.ends(last).1;
        if self.begins(end).is_none() {
            let before = self.chain(fact, from, to)?.unwrap_or(NOWHERE);
            return self.put(Step::Whole {
                before,
                place: self.place(reading),
                taken: self.taken(fact, t),
            });
        }
        let start = self.arrival_start(fact, from, to);
        let before = self.chain(fact, from, start)?;
        let entered = self.known.facts.premise(fact, start);
        let visible = self.see(
            Arrival {
                fact: last,
                entered,
            },
            reading,
        )?;
        match before {
            Some(before) => self.put(Step::ShowsBefore { visible, before }),
            None => Ok(visible),
        }
    }

    /// Where the last arrival of a path begins: at its last fact, or where it enters the clock that this fact leaves.
    fn arrival_start(&self, fact: usize, from: usize, to: usize) -> usize {
        let mut place = to.saturating_sub(1);
        let last = self.known.facts.premise(fact, place);
        if let Rule::Leave(_) = self.known.facts.get(last).rule {
            for _ in from..to {
                if let Rule::Enter = self
                    .known
                    .facts
                    .get(self.known.facts.premise(fact, place))
                    .rule
                {
                    break;
                }
                place = place.saturating_sub(1);
            }
        }
        place
    }

    /// Adds the claim that a reading sees the last of some hops.
    pub(crate) fn visible_by_hops(
        &mut self,
        fact: usize,
        reading: usize,
        from: usize,
        to: usize,
    ) -> Result<usize, NoMemory> {
        let place = self.place(reading);
        let mut start = Start {
            place,
            seer: self.reader(reading),
            visible: None,
        };
        let mut used: usize = 0;
        for turn in from..to {
            let hop = self.known.hop(turn);
            let visible = self.hop_claim(fact, start, hop, used)?;
            used = used.saturating_add(hop.path);
            start = Start {
                place,
                seer: hop.to,
                visible: Some(visible),
            };
        }
        Ok(start.visible.unwrap_or(NOWHERE))
    }

    /// Adds the claim that a reading sees where a hop leads. Of the premises of the fact so many belong to hops before.
    fn hop_claim(
        &mut self,
        fact: usize,
        start: Start,
        hop: Hop,
        used: usize,
    ) -> Result<usize, NoMemory> {
        let other = hop.to;
        match hop.way {
            Way::Own(own) => self.own_claim(fact, start, own),
            Way::Turn => {
                let before = self.turn_between(fact, other, start.seer)?;
                self.link_claim(fact, start, Link::Turn { other, before })
            }
            Way::Brought(through, own) => self.brought_claim(fact, start, through, own),
            Way::Writer(key) => {
                let end = used.saturating_add(hop.path);
                let before = self.chain(fact, used, end)?.unwrap_or(NOWHERE);
                let key = self.key(key);
                self.link_claim(fact, start, Link::Writers { other, key, before })
            }
        }
    }

    /// Adds the claim that a reading sees the source of a reading of the one at which a hop starts.
    fn own_claim(&mut self, fact: usize, start: Start, own: usize) -> Result<usize, NoMemory> {
        let source = self.source(fact, own)?;
        match start.visible {
            Some(visible) => self.put(Step::Shows { visible, source }),
            None => self.put(Step::Own {
                source,
                place: start.place,
            }),
        }
    }

    /// Adds the claim that a reading sees the source of a reading of one who is before the one at which a hop starts, by turns.
    fn brought_claim(
        &mut self,
        fact: usize,
        start: Start,
        through: usize,
        own: usize,
    ) -> Result<usize, NoMemory> {
        let before = self.turn_between(fact, through, start.seer)?;
        let source = self.source(fact, own)?;
        let link = Link::Reads {
            through,
            before,
            source,
        };
        self.link_claim(fact, start, link)
    }

    /// Adds the claim that a reading sees where a link leads from the one at which a hop starts.
    fn link_claim(&mut self, fact: usize, start: Start, link: Link) -> Result<usize, NoMemory> {
        if let Some(visible) = start.visible {
            return self.put(Step::ShowsLinked { visible, link });
        }
        let taken = self.taken(fact, start.seer);
        self.put(Step::Linked {
            reader: start.seer,
            place: start.place,
            taken,
            link,
        })
    }

    /// Adds the claim that one transaction is before another by turns.
    fn turn_between(&mut self, fact: usize, x: usize, t: usize) -> Result<usize, NoMemory> {
        self.put(Step::Turn {
            first: x,
            second: t,
            first_taken: self.taken(fact, x),
            second_taken: self.taken(fact, t),
        })
    }
}
