// The check of a pool's owner numbers and marks, in one pass; and what is wrong with the owner numbers, where something is.
#![tactic(auto)]

ghost use Rattle.std.specs.Prelude.{◌≡◌, ◌&&◌, ◌<◌, ◌≤◌, nat_lt, length, get_or, take, position};
ghost use Rattle.pool.specs.Bounds.{most_slots};
ghost use Rattle.pool.specs.Marks.{marks_ok};
ghost use Rattle.pool.specs.Pool.{has};
ghost use Rattle.pool.specs.Valid.{map_ok, clash_from, checked};
ghost use Rattle.audit.specs.Chains.{bucket_of, Chained};

use pool::{Flaw, MARK_WORDS, MOST_SLOTS, Slot, WORD_SLOTS};

// What is wrong with the owner numbers: for a pool that is not sound. A slot beyond the capacity comes before any clash.
#[tactic(auto, using(crate::proofs::Turns::beyond_found, crate::proofs::Turns::beyond_none))]
pub fn check(capacity: u64, owners: &[u64]) -> Result<(), Flaw>
    ensures { result ≡ checked capacity owners.now }
{
    match first_beyond(capacity, owners) {
        Some(i) => Err(Flaw::Beyond(Slot(i))),
        None => first_clash(owners),
    }
}

// The first slot beyond the capacity.
fn first_beyond(capacity: u64, owners: &[u64]) -> Option<usize>
    ensures { result ≡ position (λ y. nat_lt capacity y) owners.now }
{
    owners.iter().position(|x| *x > capacity)
}

// The first pair of slots that name the same block, by the lower slot, then the higher. Two loops left by a label, and no search by position:
// that form is named for "stops at the first pair of slots that name the same block".
#[tactic(auto, using(crate::proofs::Turns::clash_skip, crate::proofs::Turns::clash_enter, crate::proofs::Turns::clash_end, crate::proofs::Turns::again_hit, crate::proofs::Turns::again_miss, crate::proofs::Turns::again_end))]
fn first_clash(owners: &[u64]) -> Result<(), Flaw>
    ensures { result ≡ clash_from 0 owners.now }
{
    let mut found = Ok(());
    let n = owners.len();
    'pairs: for low in 0..n {
        let x = owners[low];
        if x == 0 {
            continue;
        }
        for high in low + 1..n {
            if owners[high] == x {
                found = Err(Flaw::Clash(Slot(low), Slot(high)));
                break 'pairs;
            }
        }
    }
    found
}

// Whether no slot is beyond the capacity, no two name the same block and the marks are right, in one pass. The slots passed are in chains, one
// for each bucket: a slot is compared with those of its own bucket alone. A link is 0 for no slot, otherwise the slot plus 1: `last` has the last
// slot of each bucket, `earlier` the slot before each in its chain. The pass goes word by word, so that the marks made of a word's slots stay in
// one local until they are compared, and no slot is asked which word is its own. Links in two arrays of bytes, not a
// map from numbers to slots: there is no heap, and what the pass works on is cleared at each call.
pub fn sound(capacity: u64, owners: &[u64], marks: &[u64]) -> bool
    requires { length owners.now ≤ most_slots }
    ensures { result ≡ (map_ok capacity owners.now && marks_ok owners.now marks.now) }
{
    if marks.len() != MARK_WORDS {
        return false;
    }
    let mut last = [0u8; 256];
    let mut earlier = [0u8; MOST_SLOTS];
    for word in 0..MARK_WORDS {
        let first = word * WORD_SLOTS;
        let end = (first + WORD_SLOTS).min(owners.len());
        let mut made: u64 = 0;
        for i in first..end {
            let x = owners[i];
            if x != 0 {
                if x > capacity {
                    return false;
                }
                let bucket = bucket_of(x);
                let link = last[bucket];
                if named_before(owners, &earlier, link, Slot(i)) {
                    return false;
                }
                earlier[i] = link;
                last[bucket] = (i + 1) as u8;
                made = marks::with_bit(made, Slot(i));
            }
        }
        if made != marks[word] {
            return false;
        }
    }
    true
}

// A bucket is eight bits of a product of 64: the low 36 bits of an owner number times an odd number of 28. Blocks in a row, and
// blocks a power of two apart, fall into buckets apart.
const LOW: u64 = 1 << 36;

const FACTOR: u64 = 247_175_911;

const BELOW: u64 = 1 << 28;

// The bucket of an owner number, one of 256.
#[tactic(auto, unfolding(crate::specs::Chains::bucket_of))]
fn bucket_of(x: u64) -> usize
    ensures number { result ≡ bucket_of x }
    ensures below { result < 256 }
{
    (x % LOW * FACTOR / BELOW % 256) as usize
}

// Whether a slot before this one names its block: those of the chain are compared, from the link on.
fn named_before(owners: &[u64], earlier: &[u8; MOST_SLOTS], link: u8, slot: Slot) -> bool
    requires { Chained owners.now earlier.now link slot.0 }
    ensures { result ≡ has (get_or owners.now slot.0 0) (take slot.0 owners.now) }
{
    let x = owners[slot.0];
    let mut at = link as usize;
    while at > 0 {
        at -= 1;
        if owners[at] == x {
            return true;
        }
        at = earlier[at] as usize;
    }
    false
}
