// Reading blocks: those of the medium, and zeros where there is no slot.
ghost use Rattle.std.specs.Prelude.{◌≡◌, ℕ, ◌+◌, ◌*◌, ◌≤◌, List, length};
ghost use Rattle.fields.specs.Bytes.{put};
ghost use Rattle.pool.specs.Bounds.{most_slots, block_bytes};
ghost use Rattle.pool.specs.Pool.{pool, read_blocks};
ghost use Rattle.map.specs.Index.{slot_bytes};

use crate::index;
use crate::range::Transfer;
use fields::bytes;
use pool::{BLOCK_BYTES, Slot};

// The bytes of a slot, or zeros where the number is no slot's. By `bytes::copy` and not `copy_from_slice`, which takes half as many instructions again
// for a block, as said there.
fn read_slot(medium: &[u8], slots: usize, slot: Slot, out: &mut [u8])
    requires { (slots ≤ most_slots)
        × (length medium.now ≡ block_bytes * slots)
        × (length out.old ≡ block_bytes) }
    ensures { out.new ≡ slot_bytes medium.now slots slot.0 }
{
    if slot.0 < slots {
        let at = BLOCK_BYTES * slot.0;
        bytes::copy(out, &medium[at..at + BLOCK_BYTES]);
    } else {
        out.fill(0);
    }
}

// The first bytes of `out` become those of the blocks, whatever the marks. The bounds are what the caller has tested of its call: with them
// each slot has its bytes and `out` has room; that the index covers the range is the transfer's own fact.
pub fn read_blocks(owners: &[u64], medium: &[u8], transfer: Transfer, out: &mut [u8])
    requires { (length owners.now ≤ most_slots)
        × (length medium.now ≡ block_bytes * length owners.now)
        × (block_bytes * transfer.range.count ≤ length out.old) }
    ensures { (marks : List ℕ) → out.new
        ≡ put out.old 0 (read_blocks (pool owners.now marks medium.now) transfer.range.first.0 transfer.range.count) }
{
    let index = index::index_of(owners, transfer);
    let count = transfer.range.count as usize;
    // By number: block k has its place in the index and its bytes at k blocks; two iterators side by side are no plainer.
    for k in 0..count {
        let from = BLOCK_BYTES * k;
        let end = from + BLOCK_BYTES;
        read_slot(medium, owners.len(), Slot(index[k]), &mut out[from..end]);
    }
}
