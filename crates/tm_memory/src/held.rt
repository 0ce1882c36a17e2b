//! Memory that is held.

ghost use Rattle.std.specs.Prelude.{◌≡◌, ◌-◌, ◌<◌, ◌≤◌, nat_lt, IfSome};

use std::alloc::Global;
use std::fs::File;
use std::io::Read;
use std::marker::Model;
use std::rt::Files;

/// What a test says that would refuse memory, where nothing can be held.
pub const NOTHING_HELD: &str = "no memory can be held here";

// How many blocks are held at the most, beside the steps.
const MOST_BLOCKS: usize = 262_144;

// The steps: how many blocks of each size, and how many sizes. Each size is half of that before.
const STEPS: usize = 448;

const STEP_SIZES: usize = 14;

const STEPS_OF_A_SIZE: usize = 32;

const GREATEST_STEP: usize = 131_072;

/// Memory that is held, seen as the number of its blocks.
#[derive(Drop)]
pub struct Held {
    // What is given back first, from the last on: it grows from block to block.
    steps: Vec<Vec<u8>>,
    // All else that there was, from the greatest block down to the least.
    blocks: Vec<Vec<u8>>,
}

impl Model for Held {
    ghost use Rattle.std.specs.Prelude.{ℕ, ◌+◌, ◌≤◌, vec_len};

    ghost Value = { ℕ };

    ghost view = { λ h. vec_len h.steps + vec_len h.blocks };

    ghost invariant = { λ h. (vec_len h.steps ≤ 448) × (vec_len h.blocks ≤ 262144) };
}

impl Held {
    /// Holds all memory that there is, in at most 262,592 blocks. They are reserved, and none is written. `None` where nothing
    /// can be held: memory isn't given back at once, or that can't be told. One such process has its address space reserved in
    /// large parts, as under the address sanitizer.
    pub fn new<R: Files + AllocGlobal>(rt: &R) -> Option<Held>
        ensures some { IfSome result (λ held. 0 < held) }
        ensures most { IfSome result (λ held. held ≤ 262592) }
    {
        let alloc = rt.alloc();
        let mut held = Held {
            steps: Vec::new(alloc),
            blocks: Vec::new(alloc),
        };
        if is_plain(rt) && held.has_room() {
            held.hold_steps(alloc);
            held.hold_all(alloc);
        }
        prove!(held.blocks() <= 262_592);
        if held.blocks() == 0 {
            return None;
        }
        Some(held)
    }

    /// How many blocks are held.
    pub fn blocks(&self) -> usize
        ensures value { result ≡ self.now }
        ensures most { result ≤ 262592 }
    {
        self.steps.len() + self.blocks.len()
    }

    /// Gives a block back, if one is held: first small ones, then greater ones, and at last all.
    pub fn give_back(&mut self) -> bool
        ensures fewer { self.new ≡ self.old - 1 }
        ensures some { result ≡ nat_lt 0 self.old }
    {
        match self.steps.pop() {
            Some(_) => true,
            None => self.blocks.pop().is_some(),
        }
    }

    // There is room for the list of the blocks, so that holding them takes no memory of its own.
    fn has_room(&mut self) -> bool {
        self.steps.try_reserve_exact(STEPS).is_ok()
            && self.blocks.try_reserve_exact(MOST_BLOCKS).is_ok()
    }

    // Holds a step of this size, if there is memory.
    fn hold_step(&mut self, alloc: Global, size: usize) {
        if self.steps.len() < STEPS {
            if let Ok(block) = Vec::with_capacity(alloc, size) {
                let _ = self.steps.push(block);
            }
        }
    }

    // Holds the steps, the greatest first.
    fn hold_steps(&mut self, alloc: Global) {
        for halvings in 0..STEP_SIZES {
            for _ in 0..STEPS_OF_A_SIZE {
                self.hold_step(alloc, GREATEST_STEP >> halvings);
            }
        }
    }

    // Holds one block more of this size, if there is memory.
    fn hold_one(&mut self, alloc: Global, size: usize) -> bool {
        if self.blocks.len() == MOST_BLOCKS {
            return false;
        }
        match Vec::with_capacity(alloc, size) {
            Ok(block) => self.blocks.push(block).is_ok(),
            Err(_) => false,
        }
    }

    // Holds blocks of this size, until there is no memory for one.
    fn hold_size(&mut self, alloc: Global, size: usize) {
        for _ in 0..MOST_BLOCKS {
            if !self.hold_one(alloc, size) {
                return;
            }
        }
    }

    // Holds all memory. Small blocks that were free before are had only by requests of their own size: hence each of these is tried.
    fn hold_all(&mut self, alloc: Global) {
        for halvings in 0..36usize {
            self.hold_size(alloc, 1usize << (46 - halvings));
        }
        for sixteens in 0..127usize {
            self.hold_size(alloc, 2032 - 16 * sixteens);
        }
    }
}

// The decimal number with which a text begins, 0 for none.
fn number_in_front(text: &[u8]) -> u64 {
    let mut number = 0u64;
    for octet in text {
        match char::from(*octet).to_digit(10) {
            Some(digit) => number = number.saturating_mul(10).saturating_add(u64::from(digit)),
            None => return number,
        }
    }
    number
}

// The process has reserved less than 2^30 pages. A sanitizer reserves more from the beginning, and keeps blocks that are given back. The
// array is as large as what a test may need of the stack: once all memory is held, the stack can't grow.
fn is_plain<R: Files>(rt: &R) -> bool {
    let Ok(mut file) = File::open(rt, "/proc/self/statm") else {
        return false;
    };
    let mut text = [0u8; 262_144];
    match file.read(&mut text) {
        Ok(read) => {
            let pages = number_in_front(&text[..read]);
            0 < pages && pages < 1 << 30
        }
        Err(_) => false,
    }
}
