//! A short cycle among the nodes that an order left out.
use crate::known::Known;
use crate::lists::at;
use crate::nodes::OPENING;
use hek_rules::NoMemory;

/// How many nodes are looked at for a shorter cycle, and how many of them for one through a given node.
const LOOKED_AT: usize = 5_000_000;

const FOR_EACH: usize = 1000;

impl Known<'_> {
    /// The length of the shortest cycle through a node, if one is found within so many nodes: the way along the clock counts as one.
    fn length_through(&mut self, node: usize, limit: usize) -> Result<usize, NoMemory> {
        if !self.graph.find_cycle(node, limit)? {
            return Ok(usize::MAX);
        }
        let mut length: usize = 0;
        for fact in &self.graph.path {
            if !self.facts.leads_to_tick(*fact) {
                length = length.saturating_add(1);
            }
        }
        Ok(length)
    }

    /// A node on a cycle that leads to one that was left out: each of these is kept back by another.
    fn on_a_cycle(&self, held: &[usize], from: usize) -> usize {
        let mut node = from;
        for _ in 0..self.graph.len() {
            for edge in self.graph.edges_into(node) {
                if at(held, edge.node, 0) > 0 {
                    node = edge.node;
                    break;
                }
            }
        }
        node
    }

    /// Finds a short cycle among the nodes that an order left out, each held back by some edges: its facts are the path of the graph.
    pub(crate) fn find_short_cycle(&mut self, held: &[usize]) -> Result<(), NoMemory> {
        let mut best = OPENING;
        let mut least = usize::MAX;
        for node in 0..self.graph.len() {
            if at(held, node, 0) == 0 {
                continue;
            }
            if least <= 2 || self.graph.looked_at > LOOKED_AT {
                break;
            }
            let mut start = node;
            let mut limit = FOR_EACH;
            if least == usize::MAX {
                start = self.on_a_cycle(held, node);
                limit = usize::MAX;
            }
            let length = self.length_through(start, limit)?;
            if length < least {
                least = length;
                best = start;
            }
        }
        let _length = self.length_through(best, usize::MAX)?;
        Ok(())
    }
}
