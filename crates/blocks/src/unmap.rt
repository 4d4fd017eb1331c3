// UNMAP, after the reservation has let it pass.
ghost use Rattle.std.specs.Prelude.{◌≡◌, ◌&&◌, ◌≤◌, leb};
ghost use Rattle.std.proofs.Math.ListN as List;
ghost use Rattle.pool.specs.Bounds.{most_blocks, most_slots};
ghost use Rattle.pool.specs.Marks.{marks_of};
ghost use Rattle.reply.specs.Reply.{changing, Refusing};
ghost use Rattle.blocks.specs.Moved.{unmaps};

use answers::Answer;
use descriptors::{DATA_LENGTH_BYTE, MOST_DESCRIPTORS};

// Whether a list of this length breaks off within its header.
fn broken_off(length: u64) -> bool
    ensures { result ≡ (leb 1 length && leb length 7) }
{
    matches!(length, 1..=7)
}

// All descriptors are tested before any acts; `length` is that of the parameter list.
#[tactic(auto, using(descriptors::proofs::Takes::some_told, descriptors::proofs::Takes::none_told), unfolding(store::specs::Move::unmap_rows, descriptors::specs::Descriptors::address_of, descriptors::specs::Descriptors::data_length_bits, fields::specs::Bits::first_byte, fields::specs::Bits::top_bit, fields::specs::Bits::bit_count, reply::specs::Reply::settles, answers::specs::Order::first_of, answers::specs::Order::if_good_by, answers::specs::Order::refuses))]
pub fn unmap(
    capacity: u64,
    owners: &mut [u64],
    marks: &mut [u64],
    length: u64,
    data_out: &[u8],
) -> Result<(), Answer>
    requires { (capacity ≤ most_blocks)
        × (List.length owners.old ≤ most_slots)
        × (marks.old ≡ marks_of owners.old) }
    ensures leaves { (changing result owners.new ≡ unmaps capacity owners.old length data_out.now)
        × (marks.new ≡ marks_of owners.new) }
    ensures refusing { Refusing result }
{
    if broken_off(length) {
        return Err(answers::list_length());
    }
    if (data_out.len() as u64) < length {
        return Err(Answer::Short);
    }
    let count = descriptors::considered(length, data_out);
    if MOST_DESCRIPTORS < count {
        return Err(answers::list_field(DATA_LENGTH_BYTE, 7, 16));
    }
    if let Some(lba) = descriptors::first_failing(capacity, data_out, count) {
        return Err(answers::out_of_range(lba.0));
    }
    descriptors::unmap_all(owners, marks, data_out, count, capacity);
    Ok(())
}
