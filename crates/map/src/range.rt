// A range of blocks, known to lie within what a capacity may have, and one that a read or a write may move.
ghost use Rattle.std.specs.Prelude.{◌≡◌, ◌+◌, ◌≤◌, ◌<◌, ltb, MatchOption};
ghost use Rattle.pool.specs.Bounds.{most_blocks, most_transfer};

use pool::Lba;

// So many blocks from the first on. No sum of the two wraps.
#[derive(Clone, Copy)]
pub struct Range {
    pub first: Lba,
    pub count: u64,
    pub ghost within: { first.0 + count ≤ most_blocks },
}

impl Range {
    // The range, where it ends within the capacity.
    pub fn within(capacity: u64, first: Lba, count: u64) -> Option<Range>
        requires { capacity ≤ most_blocks }
        ensures { MatchOption result (capacity < first.0 + count)
            (λ range. (first.0 + count ≤ capacity) × (range.first ≡ first) × (range.count ≡ count)) }
    {
        if past_end(capacity, first, count) {
            return None;
        }
        Some(Range { first, count })
    }
}

// A range that one read or one write moves: few enough blocks for an index of them.
#[derive(Clone, Copy)]
pub struct Transfer {
    pub range: Range,
    pub ghost few: { range.count ≤ most_transfer },
}

impl Transfer {
    // The transfer, where its range ends within the capacity.
    pub fn within(capacity: u64, first: Lba, count: u64) -> Option<Transfer>
        requires { (capacity ≤ most_blocks) × (count ≤ most_transfer) }
        ensures { MatchOption result (capacity < first.0 + count)
            (λ transfer. (first.0 + count ≤ capacity) × (transfer.range.first ≡ first) × (transfer.range.count ≡ count)) }
    {
        let range = Range::within(capacity, first, count)?;
        Some(Transfer { range })
    }
}

// Whether so many blocks from one on reach past the last block. No sum of an address and a count is taken: it could wrap.
pub fn past_end(capacity: u64, first: Lba, count: u64) -> bool
    ensures { result ≡ ltb capacity (first.0 + count) }
{
    capacity < count || capacity - count < first.0
}
