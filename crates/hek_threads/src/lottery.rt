//! A gate that draws whose turn it is.
use crate::worker::{Exit, Gate};
use hek_rules::{NoMemory, TxnId};
use std::alloc::Global;
use std::sync::{Mutex, Wait};
use std::thread;

/// Lets one worker at a time make an event. Once each worker is at the gate or has left, the next turn is drawn among those
/// at the gate. The same seed draws the same turns from the same transactions. It is the exit of its run too: without that it
/// waits for those that have left.
#[derive(Drop)]
pub struct Lottery<'r, R> {
    rt: &'r R,
    drum: Mutex<Drum>,
}

impl<'r, R: Wait> Lottery<'r, R> {
    /// The gate of a run with this many transactions.
    pub fn new(
        rt: &'r R,
        alloc: Global,
        txns: usize,
        seed: u64,
    ) -> Result<Lottery<'r, R>, NoMemory> {
        let mut stands = Vec::with_capacity(alloc, txns)?;
        for _ in 0..txns {
            stands.push(Stand::Busy)?;
        }
        Ok(Lottery {
            rt,
            drum: Mutex::new(Drum {
                stands,
                turn: None,
                state: seed,
            }),
        })
    }
}

impl<R: Wait> Gate for Lottery<'_, R> {
    fn before(&self, worker: TxnId, _nth: u64) {
        self.drum.lock(self.rt).put(worker, Stand::Waiting);
        for _ in self.rt.forever() {
            if self.drum.lock(self.rt).takes_turn(worker) {
                return;
            }
            thread::yield_now();
        }
    }
}

impl<R: Wait> Exit for Lottery<'_, R> {
    fn leave(&self, worker: TxnId) {
        self.drum.lock(self.rt).put(worker, Stand::Gone);
    }
}

/// Where a worker is.
#[derive(Clone, Copy, PartialEq)]
enum Stand {
    /// It has not come to the gate yet, or makes an event.
    Busy,
    Waiting,
    Gone,
}

/// Where each worker is, by its ID, whose turn it is, and the state of the random numbers.
#[derive(Drop)]
struct Drum {
    stands: Vec<Stand>,
    turn: Option<TxnId>,
    state: u64,
}

impl Drum {
    /// Notes where a worker is, and draws the next turn if no worker is busy.
    fn put(&mut self, worker: TxnId, stand: Stand) {
        if let Some(place) = self.stands.get_mut(place_of(worker)) {
            *place = stand;
        }
        if self.count_of(Stand::Busy) == 0 {
            self.draw();
        }
    }

    /// Takes a worker's turn, if it is that worker's.
    fn takes_turn(&mut self, worker: TxnId) -> bool {
        if self.turn != Some(worker) {
            return false;
        }
        self.turn = None;
        if let Some(place) = self.stands.get_mut(place_of(worker)) {
            *place = Stand::Busy;
        }
        true
    }

    fn count_of(&self, stand: Stand) -> u64 {
        self.stands.iter().filter(|it| **it == stand).count() as u64
    }

    /// Gives the turn to one of the waiting workers.
    fn draw(&mut self) {
        let waiting = self.count_of(Stand::Waiting);
        if waiting == 0 {
            return;
        }
        let mut left = self.next_random() % waiting;
        for (place, stand) in self.stands.iter().enumerate() {
            if *stand == Stand::Waiting {
                if left == 0 {
                    self.turn = Some(TxnId::new(place as u64 + 1));
                    return;
                }
                left -= 1;
            }
        }
    }

    /// The next random number (SplitMix64).
    fn next_random(&mut self) -> u64 {
        self.state = self.state.wrapping_add(0x9E37_79B9_7F4A_7C15);
        let mixed = (self.state ^ (self.state >> 30)).wrapping_mul(0xBF58_476D_1CE4_E5B9);
        let mixed = (mixed ^ (mixed >> 27)).wrapping_mul(0x94D0_49BB_1331_11EB);
        mixed ^ (mixed >> 31)
    }
}

fn place_of(worker: TxnId) -> usize {
    worker.number().saturating_sub(1) as usize
}
