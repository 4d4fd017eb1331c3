// Commands that tell what everybody may know. Each builds all that is there to be told; `reply::cut` cuts and writes it.
#![tactic(auto)]

ghost use Rattle.std.specs.Prelude.{◌≡◌, ◌≤◌};
ghost use Rattle.reply.specs.Reply.{replied, Refusing};
ghost use Rattle.tell.specs.Telling.{tells, tells_page};

use answers::Answer;
use forms::{Request, Tell};
use reply::cut;
use store::Unit;

mod pages;

// A page of vital product data. The decoder lets no other code pass; of one there is nothing to tell.
#[tactic(auto, using(crate::proofs::TellLaws::page_00, crate::proofs::TellLaws::page_b0, crate::proofs::TellLaws::page_b2, crate::proofs::TellLaws::page_none, crate::proofs::TellLaws::take_none), unfolding(crate::specs::Telling::tells_page))]
fn vital(page: u8, allocation: u64, data_in: &mut [u8]) -> Result<usize, Answer>
    ensures leaves { replied result data_in.new ≡ tells_page page allocation data_in.old }
    ensures refusing { Refusing result }
{
    match page {
        0x00 => cut::give(allocation, &pages::supported(), data_in),
        0xB0 => cut::give(allocation, &pages::block_limits(), data_in),
        0xB2 => cut::give(allocation, &pages::provisioning(), data_in),
        _ => cut::give(allocation, &[], data_in),
    }
}

#[tactic(auto, using(crate::proofs::TellLaws::laws))]
pub fn tell(what: Tell, request: Request, unit: Unit, data_in: &mut [u8]) -> Result<usize, Answer>
    requires { 1 ≤ unit.capacity }
    ensures leaves { replied result data_in.new ≡ tells what request unit data_in.old }
    ensures refusing { Refusing result }
{
    let allocation = request.size;
    match what {
        Tell::Ready => cut::give(allocation, &[], data_in),
        Tell::Inquiry => cut::give(allocation, &pages::inquiry(), data_in),
        Tell::VitalData => vital(request.page, allocation, data_in),
        Tell::Capacity10 => cut::give(8, &pages::capacity10(unit.capacity), data_in),
        Tell::Capacity16 => cut::give(allocation, &pages::capacity16(unit.capacity), data_in),
        Tell::Keys => cut::give(
            allocation,
            told::keys_data(&unit.rights).as_slice(),
            data_in,
        ),
        Tell::Reservation => cut::give(
            allocation,
            told::reservation_data(&unit.rights).as_slice(),
            data_in,
        ),
    }
}
