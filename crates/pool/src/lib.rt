// The pool: its types and its bounds. It has no function: specs/ say what a pool means, proofs/ what follows.
#![tactic(auto)]

// A block address, counted from 0.
#[derive(Clone, Copy)]
pub struct Lba(pub u64);

// A slot of the pool, counted from 0.
#[derive(Clone, Copy)]
pub struct Slot(pub usize);

// What is wrong with the owner numbers: a slot beyond the capacity, or two slots, the lower first, that name one block.
#[derive(Clone, Copy)]
pub enum Flaw {
    Beyond(Slot),
    Clash(Slot, Slot),
}

// The most blocks a capacity may have.
pub const MOST_BLOCKS: u64 = 1 << 40;

// The most slots a pool may have.
pub const MOST_SLOTS: usize = 128;

// The bytes of a block, and of a slot.
pub const BLOCK_BYTES: usize = 512;

// The most blocks that one read or write moves.
pub const MOST_TRANSFER: usize = 128;

// The words of marks, whatever the slots, and the slots that one of them marks.
pub const MARK_WORDS: usize = 2;

pub const WORD_SLOTS: usize = 64;
