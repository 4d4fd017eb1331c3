// Commands on the blocks and their map, once the reservation has let them pass: they see the pool, and change it alone.
#![tactic(auto)]

pub mod same;
pub mod status;
pub mod transfer;
pub mod unmap;

ghost use Rattle.std.specs.Prelude.{◌≡◌, ◌≤◌, T};
ghost use Rattle.pool.specs.Bounds.{most_transfer};
ghost use Rattle.pool.specs.Pool.{pool};
ghost use Rattle.forms.specs.declared.Command.TheVariants.{Moves};
ghost use Rattle.forms.proofs.Fields.{is_counted};
ghost use Rattle.reply.specs.Reply.{Bounded, replied, Refusing};
ghost use Rattle.blocks.specs.Moved.{moving, moves};

use answers::Answer;
use forms::{Move, Request};

// The command that is asked for, and how many bytes it returns. Its count is what the decoder has let pass.
#[tactic(auto, using(fields::proofs::BytesLaws::put_none, answers::proofs::OrderLaws::if_same), unfolding(crate::specs::Moved::moves, forms::proofs::Fields::is_counted, store::specs::Move::move_rows, store::specs::Move::moved, store::specs::Move::fetched, reply::specs::Reply::reply_of, reply::specs::Reply::settles, answers::specs::Order::if_good_by, answers::specs::Order::refuses))]
pub fn move_blocks(
    what: Move,
    request: Request,
    capacity: u64,
    owners: &mut [u64],
    marks: &mut [u64],
    medium: &mut [u8],
    data_out: &[u8],
    data_in: &mut [u8],
) -> Result<usize, Answer>
    requires { Bounded capacity owners.old marks.old medium.old × (T (is_counted (Moves what)) → request.size ≤ most_transfer) }
    ensures leaves { moving (replied result data_in.new) owners.new marks.new medium.new
        ≡ moves what request capacity (pool owners.old marks.old medium.old)
        data_out.now data_in.old }
    ensures refusing { Refusing result }
{
    let lba = request.address;
    let size = request.size;
    match what {
        Move::Read => transfer::read(capacity, owners, medium, lba, size, data_in),
        Move::Write => {
            transfer::write(capacity, owners, marks, medium, lba, size, data_out).map(|()| 0)
        }
        Move::WriteSame => {
            same::write_same(
                capacity,
                owners,
                marks,
                medium,
                lba,
                size,
                request.options,
                data_out,
            )
            .map(|()| 0)
        }
        Move::Unmap => unmap::unmap(capacity, owners, marks, size, data_out).map(|()| 0),
        Move::Status => status::status(capacity, owners, lba, size, data_in),
    }
}
