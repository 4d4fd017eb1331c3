// WRITE SAME, after the reservation has let it pass: one block for a whole range.
ghost use Rattle.std.specs.Prelude.{◌≡◌, ◌*◌, ◌≤◌, length};
ghost use Rattle.pool.specs.Bounds.{most_slots, most_transfer, block_bytes};
ghost use Rattle.pool.specs.Marks.{marks_of};
ghost use Rattle.pool.specs.Pool.{pool};
ghost use Rattle.reply.specs.Reply.{Bounded, changing, Refusing};
ghost use Rattle.blocks.specs.Moved.{spreads, writes_same};

use answers::Answer;
use fields::{bytes, numbers};
use map::range::Transfer;
use pool::{BLOCK_BYTES, Lba};

// The block goes to the whole range, or the range is unmapped. A block is searched for a byte that is not 0 only where that is asked for.
#[tactic(auto, unfolding(crate::specs::Moved::spreads, reply::specs::Reply::settles, answers::specs::Order::first_of, answers::specs::Order::if_good_by, answers::specs::Order::refuses, map::specs::Write::try_write, pool::specs::Pool::unmap_blocks))]
fn spread(
    owners: &mut [u64],
    marks: &mut [u64],
    medium: &mut [u8],
    transfer: Transfer,
    may_unmap: bool,
    block: &[u8],
) -> Result<(), Answer>
    requires { (length owners.old ≤ most_slots)
        × (marks.old ≡ marks_of owners.old)
        × (length medium.old ≡ block_bytes * length owners.old)
        × (length block.now ≡ block_bytes) }
    ensures leaves { changing result (pool owners.new marks.new medium.new)
        ≡ spreads (pool owners.old marks.old medium.old) transfer.range.first.0 transfer.range.count may_unmap block.now }
    ensures refusing { Refusing result }
{
    if may_unmap && bytes::are_zeros(block) {
        map::unmap::unmap_blocks(owners, marks, transfer.range);
        return Ok(());
    }
    if map::write::write_same(owners, marks, medium, transfer, block) {
        Ok(())
    } else {
        Err(answers::no_room(transfer.range.first.0))
    }
}

// `options` is byte 1 of the CDB: bit 3 is UNMAP, and bit 0 NDOB, with which data-out is not looked at and the block is zeros.
#[tactic(auto, unfolding(store::specs::Move::same_rows, store::specs::Move::past_end, store::specs::Same::has_no_data, reply::specs::Reply::settles, answers::specs::Order::first_of, answers::specs::Order::if_good_by, answers::specs::Order::refuses))]
pub fn write_same(
    capacity: u64,
    owners: &mut [u64],
    marks: &mut [u64],
    medium: &mut [u8],
    lba: Lba,
    count: u64,
    options: u8,
    data_out: &[u8],
) -> Result<(), Answer>
    requires { Bounded capacity owners.old marks.old medium.old × (count ≤ most_transfer) }
    ensures leaves { changing result (pool owners.new marks.new medium.new)
        ≡ writes_same capacity (pool owners.old marks.old medium.old) lba.0 count options data_out.now }
    ensures refusing { Refusing result }
{
    let Some(transfer) = Transfer::within(capacity, lba, count) else {
        return Err(answers::out_of_range(lba.0));
    };
    let may_unmap = numbers::bit(options, 3);
    if numbers::bit(options, 0) {
        return spread(
            owners,
            marks,
            medium,
            transfer,
            may_unmap,
            &[0; BLOCK_BYTES],
        );
    }
    if data_out.len() < BLOCK_BYTES {
        return Err(Answer::Short);
    }
    spread(
        owners,
        marks,
        medium,
        transfer,
        may_unmap,
        &data_out[..BLOCK_BYTES],
    )
}
