// Writing blocks: slots first, then bytes; refused with nothing changed where there are too few free slots.
ghost use Rattle.std.specs.Prelude.{◌≡◌, ℕ, List, ◌+◌, ◌*◌, ◌<◌, ◌≤◌, length, take, slice_index};
ghost use Rattle.pool.specs.Bounds.{most_slots, most_transfer, block_bytes};
ghost use Rattle.pool.specs.Marks.{marks_of};
ghost use Rattle.pool.specs.Pool.{pool, free, unmapped, assign_blocks, copies};
ghost use Rattle.map.specs.Index.{Indexed, put_places};
ghost use Rattle.map.specs.Write.{Gave, Stepped, written, try_write};

use crate::index;
use crate::range::Transfer;
use fields::bytes;
use marks::Words;
use pool::BLOCK_BYTES;

// Each unmapped address of the range, in rising order, gets the lowest free slot, which is marked, and the index its place.
fn assign_blocks(owners: &mut [u64], marks: &mut [u64], index: &mut [usize], transfer: Transfer)
    requires { (length owners.old ≤ most_slots)
        × (marks.old ≡ marks_of owners.old)
        × Indexed owners.old transfer.range.first.0 transfer.range.count index.old
        × (unmapped owners.old transfer.range.first.0 transfer.range.count ≤ free owners.old) }
    ensures { (owners.new ≡ assign_blocks owners.old transfer.range.first.0 transfer.range.count)
        × (marks.new ≡ marks_of owners.new)
        × Indexed owners.new transfer.range.first.0 transfer.range.count index.new }
{
    let mut words = Words::of(marks);
    // By number: k gives the address, and the index changes.
    for k in 0..transfer.range.count as usize {
        if index[k] < owners.len() {
            continue;
        }
        let place = words.take().0;
        owners[place] = transfer.range.first.0 + k as u64 + 1;
        index[k] = place;
    }
    words.put(marks);
}

// Slots for all blocks of the range or, where too few are free, for none; and whether they have them. How many are free is read off the marks.
fn give_slots(
    owners: &mut [u64],
    marks: &mut [u64],
    index: &mut [usize],
    transfer: Transfer,
) -> bool
    requires { (length owners.old ≤ most_slots)
        × (marks.old ≡ marks_of owners.old)
        × Indexed owners.old transfer.range.first.0 transfer.range.count index.old }
    ensures { Gave owners.old transfer.range.first.0 transfer.range.count result owners.new marks.new index.new }
{
    let missing = index::missing_in(index, owners.len(), transfer.range.count as usize);
    if missing == 0 {
        return true;
    }
    let words = Words::of(marks);
    if missing > owners.len() - words.marked() {
        return false;
    }
    assign_blocks(owners, marks, index, transfer);
    true
}

// Each block's bytes go to its place: those of block k stand in `bytes` from `step * k` on. By `copy_from_slice` it is slower, as a read is.
#[inline(always)]
fn put_blocks(medium: &mut [u8], index: &[usize], count: usize, bytes: &[u8], step: usize)
    requires { (count ≤ most_transfer)
        × (count ≤ length index.now)
        × (length medium.old ≤ block_bytes * most_slots)
        × ((k : ℕ) → k < count → block_bytes * slice_index index.now k + block_bytes ≤ length medium.old)
        × (step ≤ block_bytes)
        × ((k : ℕ) → k < count → step * k + block_bytes ≤ length bytes.now) }
    ensures { (source : List ℕ) → Stepped step count bytes.now source
        → medium.new ≡ put_places (take count index.now) medium.old source }
{
    // By number, as a read is.
    for k in 0..count {
        let from = step * k;
        let at = BLOCK_BYTES * index[k];
        bytes::copy(
            &mut medium[at..at + BLOCK_BYTES],
            &bytes[from..from + BLOCK_BYTES],
        );
    }
}

// All of a write or nothing of it, and whether it was done: there is one refusal, and each caller names it in its own way. The bytes of block k stand
// in `bytes` from `step * k` on. The bounds are what the caller has tested of its call, as for a read. It is laid into both of its callers, where the
// step is a constant.
#[inline(always)]
fn write(
    owners: &mut [u64],
    marks: &mut [u64],
    medium: &mut [u8],
    transfer: Transfer,
    bytes: &[u8],
    step: usize,
) -> bool
    requires { (length owners.old ≤ most_slots)
        × (marks.old ≡ marks_of owners.old)
        × (length medium.old ≡ block_bytes * length owners.old)
        × (step ≤ block_bytes)
        × ((k : ℕ) → k < transfer.range.count → step * k + block_bytes ≤ length bytes.now) }
    ensures { (source : List ℕ) → Stepped step transfer.range.count bytes.now source
        → written result owners.new marks.new medium.new
        ≡ try_write (pool owners.old marks.old medium.old) transfer.range.first.0 transfer.range.count source }
{
    let mut index = index::index_of(owners, transfer);
    if !give_slots(owners, marks, &mut index, transfer) {
        return false;
    }
    put_blocks(medium, &index, transfer.range.count as usize, bytes, step);
    true
}

// A write of block after block. The bounds are what the caller has tested of its call, as for a read, and the marks are the owners' too: the free
// slots are read off them.
pub fn write_blocks(
    owners: &mut [u64],
    marks: &mut [u64],
    medium: &mut [u8],
    transfer: Transfer,
    bytes: &[u8],
) -> bool
    requires { (length owners.old ≤ most_slots)
        × (marks.old ≡ marks_of owners.old)
        × (length medium.old ≡ block_bytes * length owners.old)
        × (block_bytes * transfer.range.count ≤ length bytes.now) }
    ensures { written result owners.new marks.new medium.new
        ≡ try_write (pool owners.old marks.old medium.old) transfer.range.first.0 transfer.range.count bytes.now }
{
    write(owners, marks, medium, transfer, bytes, BLOCK_BYTES)
}

// A write of one block for the whole range. The bounds are those of any write, and the block is a whole one.
pub fn write_same(
    owners: &mut [u64],
    marks: &mut [u64],
    medium: &mut [u8],
    transfer: Transfer,
    block: &[u8],
) -> bool
    requires { (length owners.old ≤ most_slots)
        × (marks.old ≡ marks_of owners.old)
        × (length medium.old ≡ block_bytes * length owners.old)
        × (length block.now ≡ block_bytes) }
    ensures { written result owners.new marks.new medium.new
        ≡ try_write (pool owners.old marks.old medium.old) transfer.range.first.0 transfer.range.count (copies transfer.range.count block.now) }
{
    write(owners, marks, medium, transfer, block, 0)
}
