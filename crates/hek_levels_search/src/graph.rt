//! A graph whose nodes are kept in an order that agrees with its edges.
use crate::lists::{add, add_in, at, list_at, put};
use hek_rules::NoMemory;
use std::alloc::Global;

/// An edge, at one of its ends: the fact that it is, and the node at its other end.
#[derive(Clone, Copy)]
pub(crate) struct Edge {
    pub fact: usize,
    pub node: usize,
}

/// No edge.
const NO_EDGE: Edge = Edge { fact: 0, node: 0 };

/// What is noted of a node.
#[derive(Clone, Copy)]
struct Mark {
    /// Its place in the order.
    place: usize,
    /// The turn in which it was last seen, and the edge by which it was reached then.
    seen: usize,
    reached_by: Edge,
}

/// The mark past the end.
const NO_MARK: Mark = Mark {
    place: 0,
    seen: 0,
    reached_by: NO_EDGE,
};

/// Edges in both directions, and an order of the nodes.
#[derive(Drop)]
pub(crate) struct Graph {
    out: Vec<Vec<Edge>>,
    into: Vec<Vec<Edge>>,
    marks: Vec<Mark>,
    /// The nodes in order.
    order: Vec<usize>,
    turn: usize,
    /// The nodes that were seen, in the order in which they were.
    queue: Vec<usize>,
    /// The nodes that are to be moved, and places of nodes.
    moved: Vec<usize>,
    places: Vec<usize>,
    /// The facts of the path that was found last.
    pub path: Vec<usize>,
    /// How many nodes paths were looked for from.
    pub looked_at: usize,
}

impl Graph {
    /// A graph without a node.
    pub(crate) fn new(alloc: Global) -> Graph {
        Graph {
            out: Vec::new(alloc),
            into: Vec::new(alloc),
            marks: Vec::new(alloc),
            order: Vec::new(alloc),
            turn: 0,
            queue: Vec::new(alloc),
            moved: Vec::new(alloc),
            places: Vec::new(alloc),
            path: Vec::new(alloc),
            looked_at: 0,
        }
    }

    /// Adds a node without an edge, after all others.
    pub(crate) fn add_node(&mut self, alloc: Global) -> Result<(), NoMemory> {
        let node = self.out.len();
        self.out.push(Vec::new(alloc))?;
        self.into.push(Vec::new(alloc))?;
        let mark = Mark {
            place: node,
            ..NO_MARK
        };
        add(&mut self.marks, mark)?;
        add(&mut self.order, node)
    }

    fn mark(&self, node: usize) -> Mark {
        at(self.marks.as_slice(), node, NO_MARK)
    }

    pub(crate) fn len(&self) -> usize {
        self.out.len()
    }

    pub(crate) fn out_of(&self, node: usize) -> &[Edge] {
        list_at(self.out.as_slice(), node)
    }

    pub(crate) fn edges_into(&self, node: usize) -> &[Edge] {
        list_at(self.into.as_slice(), node)
    }

    pub(crate) fn place_of(&self, node: usize) -> usize {
        self.mark(node).place
    }

    /// Moves a node to a place of the order.
    fn move_to(&mut self, node: usize, place: usize) {
        let mark = Mark {
            place,
            ..self.mark(node)
        };
        put(&mut self.marks, node, mark);
    }

    pub(crate) fn order(&self) -> &[usize] {
        self.order.as_slice()
    }

    /// Takes another order of all nodes.
    pub(crate) fn set_order(&mut self, order: &[usize]) {
        for (place, node) in order.iter().enumerate() {
            self.move_to(*node, place);
            put(&mut self.order, place, *node);
        }
    }

    /// Adds an edge, whether or not the order agrees with it.
    pub(crate) fn link(
        &mut self,
        first: usize,
        second: usize,
        fact: usize,
    ) -> Result<(), NoMemory> {
        add_in(&mut self.out, first, Edge { fact, node: second })?;
        add_in(&mut self.into, second, Edge { fact, node: first })
    }

    /// Takes an edge away.
    pub(crate) fn unlink(&mut self, first: usize, second: usize, fact: usize) {
        take_out(&mut self.out, first, fact);
        take_out(&mut self.into, second, fact);
    }

    /// Begins a turn, from a node. The node itself is seen, unless it is looked for.
    fn begin_turn(&mut self, node: usize, is_seen: bool) -> Result<(), NoMemory> {
        self.turn = self.turn.saturating_add(1);
        self.queue.clear();
        let mark = Mark {
            seen: if is_seen { self.turn } else { 0 },
            ..self.mark(node)
        };
        put(&mut self.marks, node, mark);
        add(&mut self.queue, node)
    }

    /// Sees a node over an edge from another, if it wasn't seen in this turn.
    fn see(&mut self, edge: Edge, from: usize) -> Result<(), NoMemory> {
        let mark = self.mark(edge.node);
        if mark.seen == self.turn {
            return Ok(());
        }
        let seen = Mark {
            seen: self.turn,
            reached_by: Edge {
                fact: edge.fact,
                node: from,
            },
            ..mark
        };
        put(&mut self.marks, edge.node, seen);
        add(&mut self.queue, edge.node)
    }

    /// Sees the nodes after one, up to a place of the order.
    fn see_after(&mut self, node: usize, end: usize) -> Result<(), NoMemory> {
        self.looked_at = self.looked_at.saturating_add(1);
        for place in 0..self.out_of(node).len() {
            let edge = at(self.out_of(node), place, NO_EDGE);
            if self.place_of(edge.node) <= end {
                self.see(edge, node)?;
            }
        }
        Ok(())
    }

    /// Sees the nodes before one, down to a place of the order.
    fn see_before(&mut self, node: usize, end: usize) -> Result<(), NoMemory> {
        for place in 0..self.edges_into(node).len() {
            let edge = at(self.edges_into(node), place, NO_EDGE);
            if self.place_of(edge.node) >= end {
                self.see(edge, node)?;
            }
        }
        Ok(())
    }

    /// Takes the facts of the path by which a node was reached from another.
    fn trace(&mut self, from: usize, to: usize) -> Result<(), NoMemory> {
        self.path.clear();
        let mut node = to;
        for _ in 0..self.out.len() {
            let edge = self.mark(node).reached_by;
            add(&mut self.path, edge.fact)?;
            node = edge.node;
            if node == from {
                break;
            }
        }
        self.path.reverse();
        Ok(())
    }

    /// Looks from the nodes of the queue, up to a place of the order, for a path from the first of them to another. Answers whether
    /// it found one, within so many nodes.
    fn look_ahead(
        &mut self,
        from: usize,
        to: usize,
        end: usize,
        limit: usize,
    ) -> Result<bool, NoMemory> {
        for turn in 0..self.out.len() {
            if turn >= self.queue.len() || turn > limit {
                break;
            }
            let node = at(self.queue.as_slice(), turn, to);
            self.see_after(node, end)?;
            if self.mark(to).seen == self.turn {
                self.trace(from, to)?;
                return Ok(true);
            }
        }
        Ok(false)
    }

    /// Finds a shortest path from a node to another. Answers whether there is one within so many nodes.
    pub(crate) fn find_path(
        &mut self,
        from: usize,
        to: usize,
        limit: usize,
    ) -> Result<bool, NoMemory> {
        let end = self.place_of(to);
        if self.place_of(from) >= end {
            return Ok(false);
        }
        self.begin_turn(from, true)?;
        self.look_ahead(from, to, end, limit)
    }

    /// Finds a shortest cycle through a node, whatever the order. Answers whether there is one within so many nodes.
    pub(crate) fn find_cycle(&mut self, node: usize, limit: usize) -> Result<bool, NoMemory> {
        self.begin_turn(node, false)?;
        self.look_ahead(node, node, usize::MAX, limit)
    }

    /// Sees all nodes that lead to a node, down to a place of the order.
    fn look_back(&mut self, node: usize, end: usize) -> Result<(), NoMemory> {
        self.begin_turn(node, true)?;
        for turn in 0..self.out.len() {
            if turn >= self.queue.len() {
                break;
            }
            let next = at(self.queue.as_slice(), turn, node);
            self.see_before(next, end)?;
        }
        Ok(())
    }

    /// Moves nodes so that the first is before the second. Answers whether a path from the second to the first forbids that: then
    /// nothing is moved.
    pub(crate) fn make_room(&mut self, first: usize, second: usize) -> Result<bool, NoMemory> {
        let low = self.place_of(second);
        if self.place_of(first) < low {
            return Ok(false);
        }
        if self.find_path(second, first, usize::MAX)? {
            return Ok(true);
        }
        self.moved.clear();
        self.note_seen()?;
        self.look_back(first, low)?;
        self.note_seen()?;
        self.move_all()?;
        Ok(false)
    }

    /// Notes the nodes that were seen as ones to be moved, the last one first.
    fn note_seen(&mut self) -> Result<(), NoMemory> {
        take_places(
            &mut self.places,
            self.marks.as_slice(),
            self.queue.as_slice(),
        )?;
        for place in &self.places {
            add(&mut self.moved, at(self.order.as_slice(), *place, 0))?;
        }
        Ok(())
    }

    /// Gives the nodes that are to be moved, the last one first, their own places, from the last one down.
    fn move_all(&mut self) -> Result<(), NoMemory> {
        take_places(
            &mut self.places,
            self.marks.as_slice(),
            self.moved.as_slice(),
        )?;
        for turn in 0..self.moved.len() {
            let node = at(self.moved.as_slice(), turn, 0);
            let place = at(self.places.as_slice(), turn, 0);
            self.move_to(node, place);
            put(&mut self.order, place, node);
        }
        Ok(())
    }
}

/// Takes the places of nodes, the last one first.
fn take_places(places: &mut Vec<usize>, marks: &[Mark], nodes: &[usize]) -> Result<(), NoMemory> {
    places.clear();
    for node in nodes {
        add(places, at(marks, *node, NO_MARK).place)?;
    }
    places.sort_unstable();
    places.reverse();
    Ok(())
}

/// Takes the edge of a fact out of the list of a node.
fn take_out(lists: &mut Vec<Vec<Edge>>, node: usize, fact: usize) {
    if let Some(list) = lists.get_mut(node) {
        for place in 0..list.len() {
            if at(list.as_slice(), place, NO_EDGE).fact == fact && place < list.len() {
                let _edge = list.swap_remove(place);
                return;
            }
        }
    }
}
