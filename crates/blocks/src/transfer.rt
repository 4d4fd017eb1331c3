// READ and WRITE, after the reservation has let them pass.
ghost use Rattle.std.specs.Prelude.{◌≡◌, List, ℕ, ◌*◌, ◌≤◌, length};
ghost use Rattle.pool.specs.Bounds.{most_blocks, most_slots, most_transfer, block_bytes};
ghost use Rattle.pool.specs.Pool.{pool};
ghost use Rattle.reply.specs.Reply.{Bounded, replied, changing, Refusing};
ghost use Rattle.blocks.specs.Moved.{reads, writes};

use answers::Answer;
use map::range::Transfer;
use pool::{BLOCK_BYTES, Lba};

#[tactic(auto, using(pool::proofs::Reading::length_read_blocks), unfolding(store::specs::Move::read_rows, store::specs::Move::past_end, reply::specs::Reply::reply_of, answers::specs::Order::first_of, answers::specs::Order::if_good_by, answers::specs::Order::refuses))]
pub fn read(
    capacity: u64,
    owners: &[u64],
    medium: &[u8],
    lba: Lba,
    count: u64,
    data_in: &mut [u8],
) -> Result<usize, Answer>
    requires { (capacity ≤ most_blocks)
        × (length owners.now ≤ most_slots)
        × (length medium.now ≡ block_bytes * length owners.now)
        × (count ≤ most_transfer) }
    ensures leaves { (marks : List ℕ) → replied result data_in.new
        ≡ reads capacity (pool owners.now marks medium.now) lba.0 count data_in.old }
    ensures refusing { Refusing result }
{
    // Not by `ok_or`: it lays out the refusal before it is known whether there is one.
    let Some(transfer) = Transfer::within(capacity, lba, count) else {
        return Err(answers::out_of_range(lba.0));
    };
    let bytes = BLOCK_BYTES * count as usize;
    if data_in.len() < bytes {
        return Err(Answer::Short);
    }
    map::read::read_blocks(owners, medium, transfer, data_in);
    Ok(bytes)
}

#[tactic(auto, unfolding(store::specs::Move::write_rows, store::specs::Move::past_end, reply::specs::Reply::settles, map::specs::Write::try_write, answers::specs::Order::first_of, answers::specs::Order::if_good_by, answers::specs::Order::refuses))]
pub fn write(
    capacity: u64,
    owners: &mut [u64],
    marks: &mut [u64],
    medium: &mut [u8],
    lba: Lba,
    count: u64,
    data_out: &[u8],
) -> Result<(), Answer>
    requires { Bounded capacity owners.old marks.old medium.old × (count ≤ most_transfer) }
    ensures leaves { changing result (pool owners.new marks.new medium.new)
        ≡ writes capacity (pool owners.old marks.old medium.old) lba.0 count data_out.now }
    ensures refusing { Refusing result }
{
    let Some(transfer) = Transfer::within(capacity, lba, count) else {
        return Err(answers::out_of_range(lba.0));
    };
    if data_out.len() < BLOCK_BYTES * count as usize {
        return Err(Answer::Short);
    }
    if map::write::write_blocks(owners, marks, medium, transfer, data_out) {
        Ok(())
    } else {
        Err(answers::no_room(lba.0))
    }
}
