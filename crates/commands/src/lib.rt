// One call to the store: the order of its tests, and the command that it asks for.
#![tactic(auto)]

mod act;
mod stages;

ghost use Rattle.std.specs.Prelude.{◌≡◌};
ghost use Rattle.store.specs.Step.{step};
ghost use Rattle.store.specs.Fresh.{fresh_unit, fresh};
ghost use Rattle.store.specs.Room.{room_of};
ghost use Rattle.reply.specs.Contract.{store_of, call_of, left, made};
ghost use Rattle.commands.specs.Room.{room_told};

use answers::sense::{put_refusal, put_sense};
use answers::{Answer, sense};
use marks::{FreeRoom, Words};
use pool::MARK_WORDS;
use reply::Outcome;
use store::Unit;

// One call. Whatever is lent, it is answered.
pub fn execute(
    format: u64,
    unit: Unit,
    owners: &mut [u64],
    marks: &mut [u64],
    medium: &mut [u8],
    nexus: u64,
    cdb: &[u8],
    data_out: &[u8],
    data_in: &mut [u8],
    sense: &mut [u8],
) -> Outcome
    ensures { left format result owners.new marks.new medium.new data_in.new sense.new
        ≡ step
        (store_of format unit owners.old marks.old medium.old)
        (call_of nexus cdb.now data_out.now data_in.old sense.old) }
{
    if !readiness::ready(format, unit, owners, marks, medium, nexus, cdb, sense) {
        return act::answered(Answer::Unusable, unit);
    }
    match stages::asked(unit, nexus, cdb) {
        Err(answer) => {
            put_sense(format, answer, sense);
            act::answered(answer, act::refused_unit(answer, nexus, unit))
        }
        Ok(request) => {
            let outcome = act::act(
                request, unit, owners, marks, medium, nexus, data_out, data_in,
            );
            // Not by `put_sense`: most calls are served, and need not lay out their answer to be told that it has no sense.
            if let Answer::Refused(refusal) = outcome.answer {
                put_refusal(format, refusal, sense);
            }
            outcome
        }
    }
}

// A unit without registration and reservation, and with nothing waiting.
#[tactic(auto, unfolding(store::specs::Fresh::fresh_unit))]
fn fresh_unit(capacity: u64) -> Unit
    ensures { result ≡ fresh_unit capacity }
{
    Unit {
        capacity,
        rights: reservations::standing::none(),
        attentions: attentions::none(),
    }
}

// A fresh store's unit. The medium is neither taken nor touched; bad bounds, and a format that is none, leave the owners and the marks.
#[tactic(auto, unfolding(store::specs::Fresh::fresh, store::specs::Fresh::fresh_answer, answers::specs::Order::first_of, answers::specs::Order::if_good_by, answers::specs::Order::refuses))]
pub fn fresh(
    capacity: u64,
    format: u64,
    owners: &mut [u64],
    marks: &mut [u64],
) -> Result<Unit, Answer>
    ensures { made result owners.new marks.new ≡ fresh capacity format owners.old marks.old }
{
    if !readiness::capacity_ok(capacity)
        || !sense::format_ok(format)
        || !readiness::slots_ok(owners.len())
        || marks.len() != MARK_WORDS
    {
        return Err(Answer::Unusable);
    }
    map::slots::free_all(owners);
    marks::clear_all(marks);
    Ok(fresh_unit(capacity))
}

// The room of a store, read off its marks. It is no command, and changes nothing.
#[tactic(auto, using(crate::proofs::RoomLaws::room_refused, crate::proofs::RoomLaws::room_read))]
pub fn room(
    format: u64,
    unit: Unit,
    owners: &[u64],
    marks: &[u64],
    medium: &[u8],
) -> Result<FreeRoom, Answer>
    ensures { room_told result ≡ room_of (store_of format unit owners.now marks.now medium.now) }
{
    if !readiness::usable(format, unit, owners, marks, medium) {
        return Err(Answer::Unusable);
    }
    Ok(Words::of(marks).room(owners.len()))
}
