// GET LBA STATUS, after the reservation has let it pass: it sees the map, and changes nothing.
ghost use Rattle.std.specs.Prelude.{◌≡◌, ◌≤◌, length};
ghost use Rattle.pool.specs.Bounds.{most_blocks, most_slots};
ghost use Rattle.reply.specs.Reply.{replied, Refusing};
ghost use Rattle.blocks.specs.Moved.{tells_status};

use answers::Answer;
use pool::Lba;
use runs::Map;

// All that there is to be told is put together, and then cut to the allocation length.
#[tactic(auto, using(runs::proofs::PageLaws::status_long, fields::proofs::BytesLaws::length_put), unfolding(store::specs::Move::status_rows, reply::specs::Reply::reply_of, answers::specs::Order::first_of, answers::specs::Order::if_good_by, answers::specs::Order::refuses))]
pub fn status(
    capacity: u64,
    owners: &[u64],
    lba: Lba,
    allocation: u64,
    data_in: &mut [u8],
) -> Result<usize, Answer>
    requires { (capacity ≤ most_blocks) × (length owners.now ≤ most_slots) }
    ensures leaves { replied result data_in.new
        ≡ tells_status capacity owners.now lba.0 allocation data_in.old }
    ensures refusing { Refusing result }
{
    if capacity <= lba.0 {
        return Err(answers::out_of_range(lba.0));
    }
    let mut page = [0; runs::PAGE_BYTES];
    let n = Map { capacity, owners }.put_status(lba, &mut page);
    reply::cut::give(allocation, &page[..n], data_in)
}
