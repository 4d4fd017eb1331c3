// The marks of a pool, two words of 64 bits: slot i is bit i % 64 of word i / 64. How many slots are marked and which is the lowest that is
// not is read off the words, without a look at the owners. Giving slots works on the two words in a local, so that its loop has them in registers.
#![tactic(auto)]

ghost use Rattle.std.specs.Prelude.{◌≡◌, ◌-◌, ◌<◌, ◌≤◌, length};
ghost use Rattle.std.specs.Int.Bits.{bit_or};
ghost use Rattle.std.specs.Int.Count.{ones};
ghost use Rattle.fields.specs.Bytes.{zeros};
ghost use Rattle.pool.specs.Bounds.{most_slots, word_slots, mark_words};
ghost use Rattle.pool.specs.Marks.{trailing_ones, marked, lowest};
ghost use Rattle.marks.specs.Words.{both, bit_of, with_mark, without_mark, room_in};

use pool::{Slot, WORD_SLOTS};

// The words of marks: that of slots 0 to 63, and that of the others.
#[derive(Clone, Copy)]
pub struct Words {
    pub low: u64,
    pub high: u64,
}

// The room of a pool: how many slots are free, and the lowest of them or, where none is, how many slots there are.
#[derive(Clone, Copy)]
pub struct FreeRoom {
    pub free: usize,
    pub lowest: usize,
}

impl Words {
    // The words that are lent.
    pub fn of(marks: &[u64]) -> Words
        requires { length marks.now ≡ mark_words }
        ensures { both result ≡ marks.now }
    {
        Words {
            low: marks[0],
            high: marks[1],
        }
    }

    // They are put where they are kept.
    pub fn put(self, marks: &mut [u64])
        requires { length marks.old ≡ mark_words }
        ensures { marks.new ≡ both self }
    {
        marks[0] = self.low;
        marks[1] = self.high;
    }

    // How many slots are marked: the ones of both words.
    #[tactic(auto, using(crate::proofs::Apart::marked_two))]
    pub fn marked(self) -> usize
        ensures { result ≡ marked (both self) }
    {
        ones_in(self.low) + ones_in(self.high)
    }

    // The lowest slot that is not marked: the first bit behind the ones at the low end, which may go on into the second word.
    #[tactic(auto, using(crate::proofs::Apart::lowest_first, crate::proofs::Apart::lowest_second))]
    pub fn lowest(self) -> Slot
        ensures { result.0 ≡ lowest (both self) }
    {
        let low = trailing_ones(self.low);
        if low < WORD_SLOTS {
            return Slot(low);
        }
        Slot(WORD_SLOTS + trailing_ones(self.high))
    }

    // The room of so many slots. No more are marked than there are, or the difference would wrap: the caller knows it of marks that are their
    // owners', by `marked_at_most`.
    pub fn room(self, slots: usize) -> FreeRoom
        requires { marked (both self) ≤ slots }
        ensures { result ≡ room_in slots (both self) }
    {
        FreeRoom {
            free: slots - self.marked(),
            lowest: self.lowest().0,
        }
    }

    // The lowest slot that is not marked is, from now on.
    pub fn take(&mut self) -> Slot
        requires { lowest (both self.old) < most_slots }
        ensures { (result.0 ≡ lowest (both self.old)) × (both self.new ≡ with_mark (both self.old) (lowest (both self.old))) }
    {
        let slot = self.lowest();
        if slot.0 < WORD_SLOTS {
            self.low = with_bit(self.low, slot);
        } else {
            self.high = with_bit(self.high, slot);
        }
        slot
    }
}

// No slot is marked.
#[tactic(auto, using(crate::proofs::Apart::cleared_two))]
pub fn clear_all(marks: &mut [u64])
    requires { length marks.old ≡ mark_words }
    ensures { marks.new ≡ zeros mark_words }
{
    marks.fill(0);
}

// A slot is not marked any more. By reference: few slots are freed in a loop over all.
pub fn clear(marks: &mut [u64], slot: Slot)
    requires { (slot.0 < most_slots) × (length marks.old ≡ mark_words) }
    ensures { marks.new ≡ without_mark marks.old slot.0 }
{
    marks[slot.0 / WORD_SLOTS] &= !bit_of(slot);
}

// A slot's word with its mark.
pub fn with_bit(word: u64, slot: Slot) -> u64
    ensures { result ≡ bit_or word (bit_of slot.0) }
{
    word | bit_of(slot)
}

// The bit of a slot in its word.
fn bit_of(slot: Slot) -> u64
    ensures { result ≡ bit_of slot.0 }
{
    1 << (slot.0 % WORD_SLOTS)
}

// How many ones a word has.
fn ones_in(word: u64) -> usize
    ensures { (result ≡ ones word) × (result ≤ word_slots) }
{
    word.count_ones() as usize
}

// How many ones stand at the low end of a word.
#[tactic(auto, using(crate::proofs::Apart::trailing_is, crate::proofs::Apart::zeros_most))]
fn trailing_ones(word: u64) -> usize
    ensures { (result ≡ trailing_ones word) × (result ≤ word_slots) }
{
    word.trailing_ones() as usize
}
