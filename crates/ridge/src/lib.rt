// The C interface of the store: a unit's record, numbers and lent slices, so that C and Rust can call it. `ridge_c` has it under C's names, and
// host/include/ridge.h declares it.
// The record is C's struct of the same fields, 168 bytes with no padding: the capacity at 0, the rights at 8, and in these the places at 0,
// the holder at 128, the generation at 136 and the type at 140; the attentions at 152. Any 168 bytes are one, so nothing is required of them.
#![tactic(auto)]

ghost use Rattle.std.specs.Prelude.{◌≡◌};
ghost use Rattle.reply.specs.Contract.{store_of, call_of};
ghost use Rattle.ridge.specs.Interface.{executed, freshened, roomed, leaves, leaves_fresh, leaves_room};

use answers::Answer;
use pool::MARK_WORDS;
use store::Unit;

// Makes a fresh store: its unit, its owners and its marks, and whether its format is one. The answer is document 01's number.
pub fn ridge_fresh(
    capacity: u64,
    format: u64,
    unit: &mut Unit,
    owners: &mut [u64],
    marks: &mut [u64; MARK_WORDS],
) -> u64
    ensures { leaves_fresh result unit.new owners.new marks.new
        ≡ freshened capacity format unit.old owners.old marks.old }
{
    match commands::fresh(capacity, format, owners, marks) {
        Ok(made) => {
            *unit = made;
            answers::number_of(Answer::Good)
        }
        Err(answer) => answers::number_of(answer),
    }
}

// Runs one command on a store of a format. The answer is document 01's number; `returned` is how many bytes of data-in were written.
pub fn ridge_execute(
    format: u64,
    unit: &mut Unit,
    owners: &mut [u64],
    marks: &mut [u64; MARK_WORDS],
    medium: &mut [u8],
    nexus: u64,
    cdb: &[u8],
    data_out: &[u8],
    data_in: &mut [u8],
    sense: &mut [u8],
    returned: &mut u64,
) -> u64
    ensures { leaves result returned.new unit.new
        owners.new marks.new medium.new data_in.new sense.new
        ≡ executed
        (store_of format unit.old owners.old marks.old medium.old)
        (call_of nexus cdb.now data_out.now data_in.old sense.old) }
{
    let outcome = commands::execute(
        format, *unit, owners, marks, medium, nexus, cdb, data_out, data_in, sense,
    );
    *unit = outcome.unit;
    *returned = outcome.returned as u64;
    answers::number_of(outcome.answer)
}

// Tells how many slots of a store are free, and which is the lowest of them. The answer is document 01's number; any but 0 writes neither.
#[tactic(auto, using(crate::proofs::InterfaceLaws::rooms_refused))]
pub fn ridge_room(
    format: u64,
    unit: &Unit,
    owners: &[u64],
    marks: &[u64; MARK_WORDS],
    medium: &[u8],
    free_slots: &mut u64,
    lowest_free: &mut u64,
) -> u64
    ensures { leaves_room result free_slots.new lowest_free.new
        ≡ roomed
        (store_of format unit.now owners.now marks.now medium.now)
        free_slots.old lowest_free.old }
{
    match commands::room(format, *unit, owners, marks, medium) {
        Ok(room) => {
            *free_slots = room.free as u64;
            *lowest_free = room.lowest as u64;
            answers::number_of(Answer::Good)
        }
        Err(unusable) => answers::number_of(unusable),
    }
}
