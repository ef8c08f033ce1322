//! The orders of moves, as the states to which their beginnings lead: where the same can happen after two prefixes, the
//! later one is the node of the earlier.
use crate::prefixes::{Prefix, has_left, order_of, prefixes_of, times};
use hek_explore::key_after;
use hek_permute::{Form, Moves, OrderFault};
use hek_rules::{NoMemory, Schedule, TxnId};
use indexmap::IndexMap;
use std::alloc::Global;

/// The nodes of an explorer by their prefixes, each after its parent, and the moves that lead to a node whose parent is
/// another.
#[derive(Drop)]
pub(crate) struct Nodes {
    pub prefixes: Vec<Prefix>,
    pub joins: Vec<Join>,
}

/// A move that leads from a node to the state of a node after it, whose own parent is another.
#[derive(Clone, Copy)]
pub(crate) struct Join {
    pub from: usize,
    pub who: TxnId,
    pub to: usize,
}

/// The nodes of an explorer: all prefixes of the orders of these moves, or, if there are more than `limit`, the states to
/// which they lead; None if these are more, too.
pub(crate) fn nodes_of(
    alloc: Global,
    schedule: &Schedule,
    moves: &[Moves],
    form: Form,
    limit: u64,
) -> Result<Option<Nodes>, OrderFault> {
    match prefixes_of(alloc, moves, form, limit)? {
        Some(prefixes) => Ok(Some(Nodes {
            prefixes,
            joins: Vec::new(alloc),
        })),
        None => states_of(alloc, schedule, moves, form, limit),
    }
}

/// The states to which the prefixes of the orders of these moves lead, each by the first of its prefixes; None if there
/// are more than `limit`.
fn states_of(
    alloc: Global,
    schedule: &Schedule,
    moves: &[Moves],
    form: Form,
    limit: u64,
) -> Result<Option<Nodes>, OrderFault> {
    let mut states = States::new(alloc)?;
    for place in 0..limit {
        let count = states.nodes.prefixes.len() as u64;
        if place >= count || count > limit {
            break;
        }
        states.add_longer(alloc, schedule, moves, form, place as usize)?;
    }
    if states.nodes.prefixes.len() as u64 > limit {
        return Ok(None);
    }
    Ok(Some(states.nodes))
}

/// The states so far, and the place of each by its sign.
#[derive(Drop)]
struct States {
    nodes: Nodes,
    places: IndexMap<Vec<u8>, usize>,
}

impl States {
    /// The state before any move.
    fn new(alloc: Global) -> Result<States, NoMemory> {
        let mut prefixes = Vec::new(alloc);
        prefixes.push(Prefix {
            parent: 0,
            who: TxnId::new(0),
        })?;
        Ok(States {
            nodes: Nodes {
                prefixes,
                joins: Vec::new(alloc),
            },
            places: IndexMap::new(alloc),
        })
    }

    /// Adds the states after one more move of each transaction that has one left.
    fn add_longer(
        &mut self,
        alloc: Global,
        schedule: &Schedule,
        moves: &[Moves],
        form: Form,
        parent: usize,
    ) -> Result<(), OrderFault> {
        let mut order = order_of(alloc, self.nodes.prefixes.as_slice(), parent)?;
        for (place, of_one) in moves.iter().enumerate() {
            let who = TxnId::new((place as u64).saturating_add(1));
            if has_left(order.as_slice(), who, of_one, form) {
                order.push(who)?;
                let sign = sign_of(alloc, schedule, moves, form, order.as_slice())?;
                self.add(parent, who, sign)?;
                order.pop();
            }
        }
        Ok(())
    }

    /// Adds the state with this sign: a node, or a move to the node that has it.
    fn add(&mut self, parent: usize, who: TxnId, sign: Vec<u8>) -> Result<(), NoMemory> {
        if let Some(place) = self.places.get(&sign) {
            self.nodes.joins.push(Join {
                from: parent,
                who,
                to: *place,
            })?;
            return Ok(());
        }
        self.places.insert(sign, self.nodes.prefixes.len())?;
        self.nodes.prefixes.push(Prefix { parent, who })?;
        Ok(())
    }
}

/// The sign of the state after these moves: the key of the play, and how many moves each transaction has made. After
/// prefixes with equal signs the same can happen.
fn sign_of(
    alloc: Global,
    schedule: &Schedule,
    moves: &[Moves],
    form: Form,
    order: &[TxnId],
) -> Result<Vec<u8>, OrderFault> {
    let key = key_after(alloc, schedule, moves, form, order)?;
    let mut sign = Vec::from_slice(alloc, key.bytes())?;
    for place in 0..moves.len() {
        let made = times(order, TxnId::new((place as u64).saturating_add(1)));
        sign.extend_from_slice((made as u64).to_le_bytes().as_slice())?;
    }
    Ok(sign)
}
