// Unmapping: by slots, never by blocks, since a range may have 2^32 - 1 of those.
ghost use Rattle.std.specs.Prelude.{◌≡◌, ◌≤◌, length};
ghost use Rattle.pool.specs.Bounds.{most_slots};
ghost use Rattle.pool.specs.Marks.{marks_of};
ghost use Rattle.pool.specs.Pool.{names, unmap_owners};

use crate::range::Range;
use crate::slots;
use pool::Slot;

// Whether an owner number names a block of the range.
fn names(owner: u64, range: Range) -> bool
    ensures { result ≡ names range.first.0 range.count owner }
{
    slots::above(owner, range.first.0 + 1) < range.count
}

// The slots of the range are freed, and lose their marks; their bytes stay. The bounds are what the caller has tested of its call: of no more slots
// than these each has its bit in the two words, and marks that were the owners' are so again where a slot loses both. By an index: over `iter_mut`
// each slot that is freed takes some 12 instructions more.
pub fn unmap_blocks(owners: &mut [u64], marks: &mut [u64], range: Range)
    requires { (length owners.old ≤ most_slots) × (marks.old ≡ marks_of owners.old) }
    ensures { (owners.new ≡ unmap_owners owners.old range.first.0 range.count)
        × (marks.new ≡ marks_of owners.new) }
{
    for i in 0..owners.len() {
        if !names(owners[i], range) {
            continue;
        }
        owners[i] = 0;
        marks::clear(marks, Slot(i));
    }
}
