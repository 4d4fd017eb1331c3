// The index of a range: the slot of each of its addresses, from one pass over the slots. It holds plain numbers: that of an address which has no
// slot is no slot's, and an `Option<Slot>` would be two words, of which each call, however few its blocks, fills 128.
ghost use Rattle.std.specs.Prelude.{◌≡◌, ◌≤◌, length, take};
ghost use Rattle.map.specs.Index.{Indexed, missing};

use crate::range::Transfer;
use pool::MOST_TRANSFER;

// From the highest slot to the lowest, so that the lowest that names a block stays; no slot: as many as there are. Two tests: as one, joined by
// `&&`, they take an instruction more of each slot.
pub fn index_of(owners: &[u64], transfer: Transfer) -> [usize; MOST_TRANSFER]
    ensures { Indexed owners.now transfer.range.first.0 transfer.range.count result }
{
    let first = transfer.range.first.0;
    let end = first + transfer.range.count;
    let mut index = [owners.len(); MOST_TRANSFER];
    for i in (0..owners.len()).rev() {
        let owner = owners[i];
        if owner <= first {
            continue;
        }
        if owner <= end {
            index[(owner - first - 1) as usize] = i;
        }
    }
    index
}

// How many of the first `count` addresses of an index have no slot. Counted in a loop: `filter` and `count` take some 8 instructions more of each.
pub fn missing_in(index: &[usize], slots: usize, count: usize) -> usize
    requires { count ≤ length index.now }
    ensures { result ≡ missing slots (take count index.now) }
{
    let mut n = 0;
    for slot in &index[..count] {
        if *slot == slots {
            n += 1;
        }
    }
    n
}
