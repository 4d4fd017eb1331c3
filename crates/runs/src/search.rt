// Finding a run: the blocks from one on that are all mapped or all unmapped, in one pass over the slots.
ghost use Rattle.std.specs.Prelude.{◌≡◌, true, false, not, cond, ℕ, ◌+◌, ◌-◌, ◌^◌, ◌≤◌, ◌<◌, min, ltb, length, get_or};
ghost use Rattle.pool.specs.Bounds.{most_blocks, most_slots};
ghost use Rattle.pool.specs.Pool.{mapped};
ghost use Rattle.runs.specs.Runs.{most_run, held_from, run, run_at};

use crate::{MOST_RUN, Map};
use map::slots;
use pool::{Lba, MOST_SLOTS};

// Blocks from `start` on that are all mapped, where `held` says so, or else all unmapped; and whether those behind them are likely to be mapped.
#[derive(Clone, Copy)]
pub struct Run {
    pub start: Lba,
    pub count: u64,
    pub held: bool,
    pub next: bool,
}

// The lesser of `least` and of how far `owner` lies above `first`, from below as far as through the end of the numbers.
fn nearer(owner: u64, first: u64, least: u64) -> u64
    ensures { (first ≤ owner → result ≡ min (owner - first) least) × (owner < first → result ≡ min (owner + 2 ^ 64 - first) least) }
{
    slots::above(owner, first).min(least)
}

// How many of `most` blocks from `lba` on are unmapped, up to the first that is mapped: that of the least owner number from `lba`'s on. Two slots
// a turn, and so by their numbers: what a turn costs besides them is then paid half as often.
fn unmapped_run(owners: &[u64], lba: Lba, most: u64) -> u64
    requires { lba.0 + most ≤ most_blocks }
    ensures { result ≡ held_from false owners.now lba.0 most }
{
    let first = lba.0 + 1;
    let mut least = most;
    let turns = owners.len() / 2;
    for t in 0..turns {
        least = nearer(owners[2 * t], first, least);
        least = nearer(owners[2 * t + 1], first, least);
        if least == 0 {
            return 0;
        }
    }
    if 2 * turns < owners.len() {
        return nearer(owners[2 * turns], first, least);
    }
    least
}

// Whether each block from `lba` on is mapped, as many as there can be slots.
fn mapped_near(owners: &[u64], lba: Lba) -> [bool; MOST_SLOTS]
    requires { lba.0 ≤ most_blocks }
    ensures { (k : ℕ) → k < most_slots → get_or result k false ≡ mapped owners.now (lba.0 + k) }
{
    let first = lba.0 + 1;
    let mut near = [false; MOST_SLOTS];
    for owner in owners {
        let far = slots::above(*owner, first);
        if far < MOST_SLOTS as u64 {
            near[far as usize] = true;
        }
    }
    near
}

// How many of `most` blocks from `lba` on are mapped, up to the first that is not.
fn mapped_run(owners: &[u64], lba: Lba, most: usize) -> usize
    requires { (most ≤ most_slots) × (lba.0 ≤ most_blocks) }
    ensures { result ≡ held_from true owners.now lba.0 most }
{
    let near = mapped_near(owners, lba);
    for k in 0..most {
        if !near[k] {
            return k;
        }
    }
    most
}

// The run of so many blocks that are seen to be of one kind: a descriptor tells no more than the most, and then they go on behind it. The others
// follow it otherwise.
fn told(start: Lba, seen: u64, held: bool) -> Run
    ensures { (result.start ≡ start)
        × (result.count ≡ min seen most_run)
        × (result.held ≡ held)
        × (result.next ≡ cond (ltb most_run seen) held (not held)) }
{
    Run {
        start,
        count: seen.min(MOST_RUN),
        held,
        next: held == (MOST_RUN < seen),
    }
}

impl Map<'_> {
    // How far a run from `lba` on is looked at: to the capacity, and one block further than a descriptor tells, to see whether it goes on there.
    fn sight_from(self, lba: Lba) -> u64
        requires { lba.0 < self.capacity }
        ensures { result ≡ min (self.entry.capacity - lba.0) (most_run + 1) }
    {
        (self.capacity - lba.0).min(MOST_RUN + 1)
    }

    // How many of `most` blocks from `lba` on are mapped, or else unmapped, up to the first that is not. No more blocks are mapped than there
    // are slots: so many marks are enough. Two calls and no `min`: where all marks are looked at their number is a constant.
    #[tactic(auto, using(crate::proofs::RunLaws::mapped_cut))]
    fn run_of(self, lba: Lba, most: u64, held: bool) -> u64
        requires { lba.0 + most ≤ most_blocks }
        ensures { result ≡ held_from held self.entry.owners.now lba.0 most }
    {
        if !held {
            return unmapped_run(self.owners, lba, most);
        }
        if most < MOST_SLOTS as u64 {
            return mapped_run(self.owners, lba, most as usize) as u64;
        }
        mapped_run(self.owners, lba, MOST_SLOTS) as u64
    }

    // The run from `lba` on. The kind `likely` is tried first: the other one only if no block is of that kind.
    pub(crate) fn next_run(self, lba: Lba, likely: bool) -> Run
        requires { lba.0 < self.capacity }
        ensures { run result.start.0 result.count result.held ≡ run_at self.entry.capacity self.entry.owners.now lba.0 }
    {
        let sight = self.sight_from(lba);
        let seen = self.run_of(lba, sight, likely);
        if seen > 0 {
            return told(lba, seen, likely);
        }
        told(lba, self.run_of(lba, sight, !likely), !likely)
    }
}
