// Bytes that a command returns: cut to the allocation length, and written where data-in has room for them.
ghost use Rattle.std.specs.Prelude.{◌≡◌, take};
ghost use Rattle.reply.specs.Reply.{replied, Refusing};
ghost use Rattle.reply.specs.Cut.{gives};

use answers::Answer;
use fields::bytes;

// The bytes there, cut to the allocation length, go to data-in where it has room for them.
#[tactic(auto, using(std::proofs::lemmas::List::take_min), unfolding(crate::specs::Reply::reply_of, answers::specs::Order::first_of, answers::specs::Order::if_good_by, answers::specs::Order::refuses))]
pub fn give(allocation: u64, bytes: &[u8], data_in: &mut [u8]) -> Result<usize, Answer>
    ensures leaves { replied result data_in.new ≡ gives (take allocation bytes.now) data_in.old }
    ensures refusing { Refusing result }
{
    let n = allocation.min(bytes.len() as u64) as usize;
    if data_in.len() < n {
        return Err(Answer::Short);
    }
    bytes::put(data_in, &bytes[..n]);
    Ok(n)
}
