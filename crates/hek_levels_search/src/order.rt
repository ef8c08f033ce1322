//! An order of the nodes that agrees with the edges, the expected first.
use crate::graph::Graph;
use crate::lists::{add, at, put};
use hek_rules::NoMemory;
use std::alloc::Global;
use std::cmp::Reverse;
use std::collections::BinaryHeap;

/// Nodes as they are sorted.
#[derive(Drop)]
pub(crate) struct Sorting {
    /// The nodes that nothing keeps back any more, by hint.
    ready: BinaryHeap<Reverse<(u64, usize)>>,
    /// How many edges keep each node back.
    pub held: Vec<usize>,
    /// The nodes in order.
    pub order: Vec<usize>,
}

impl Sorting {
    /// Nothing is sorted yet.
    pub(crate) fn new(alloc: Global) -> Sorting {
        Sorting {
            ready: BinaryHeap::new(alloc),
            held: Vec::new(alloc),
            order: Vec::new(alloc),
        }
    }

    /// Adds a node that nothing keeps back.
    fn add(&mut self, hints: &[u64], node: usize) -> Result<(), NoMemory> {
        self.ready.push(Reverse((at(hints, node, 0), node)))?;
        Ok(())
    }

    /// Counts what keeps the nodes back.
    fn count(&mut self, graph: &Graph, hints: &[u64]) -> Result<(), NoMemory> {
        for node in 0..graph.len() {
            let count = graph.edges_into(node).len();
            add(&mut self.held, count)?;
            if count == 0 {
                self.add(hints, node)?;
            }
        }
        Ok(())
    }

    /// One edge less keeps a node back.
    fn release(&mut self, hints: &[u64], node: usize) -> Result<(), NoMemory> {
        let count = at(self.held.as_slice(), node, 0).saturating_sub(1);
        put(&mut self.held, node, count);
        if count == 0 {
            return self.add(hints, node);
        }
        Ok(())
    }

    /// Sorts the nodes so that the order agrees with the edges, the least hint first; where the edges have cycles, those alone that
    /// none keeps back.
    pub(crate) fn sort(&mut self, graph: &Graph, hints: &[u64]) -> Result<(), NoMemory> {
        self.count(graph, hints)?;
        for _ in 0..graph.len() {
            let Some(Reverse((_, node))) = self.ready.pop() else {
                break;
            };
            add(&mut self.order, node)?;
            for edge in graph.out_of(node) {
                self.release(hints, edge.node)?;
            }
        }
        Ok(())
    }
}
