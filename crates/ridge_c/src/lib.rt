// The functions of the C interface as C links them: each calls that of `ridge` with its own name and says its clause again, since a library
// that other crates use exports nothing to C. `make library` builds libridge.a of this crate; host/include/ridge.h declares what it has.
#![tactic(auto)]

ghost use Rattle.std.specs.Prelude.{◌≡◌};
ghost use Rattle.reply.specs.Contract.{store_of, call_of};
ghost use Rattle.ridge.specs.Interface.{executed, freshened, roomed, leaves, leaves_fresh, leaves_room};

use pool::MARK_WORDS;
use store::Unit;

// Makes a fresh store: its unit, its owners and its marks, and whether its format is one.
#[unsafe(no_mangle)]
pub extern "C" fn ridge_fresh(
    capacity: u64,
    format: u64,
    unit: &mut Unit,
    owners: &mut [u64],
    marks: &mut [u64; MARK_WORDS],
) -> u64
    ensures { leaves_fresh result unit.new owners.new marks.new
        ≡ freshened capacity format unit.old owners.old marks.old }
{
    ridge::ridge_fresh(capacity, format, unit, owners, marks)
}

// Runs one command on a store of a format.
#[unsafe(no_mangle)]
pub extern "C" fn ridge_execute(
    format: u64,
    unit: &mut Unit,
    owners: &mut [u64],
    marks: &mut [u64; MARK_WORDS],
    medium: &mut [u8],
    nexus: u64,
    cdb: &[u8],
    data_out: &[u8],
    data_in: &mut [u8],
    sense: &mut [u8],
    returned: &mut u64,
) -> u64
    ensures { leaves result returned.new unit.new
        owners.new marks.new medium.new data_in.new sense.new
        ≡ executed
        (store_of format unit.old owners.old marks.old medium.old)
        (call_of nexus cdb.now data_out.now data_in.old sense.old) }
{
    ridge::ridge_execute(
        format, unit, owners, marks, medium, nexus, cdb, data_out, data_in, sense, returned,
    )
}

// Tells how many slots of a store are free, and which is the lowest of them.
#[unsafe(no_mangle)]
pub extern "C" fn ridge_room(
    format: u64,
    unit: &Unit,
    owners: &[u64],
    marks: &[u64; MARK_WORDS],
    medium: &[u8],
    free_slots: &mut u64,
    lowest_free: &mut u64,
) -> u64
    ensures { leaves_room result free_slots.new lowest_free.new
        ≡ roomed
        (store_of format unit.now owners.now marks.now medium.now)
        free_slots.old lowest_free.old }
{
    ridge::ridge_room(format, unit, owners, marks, medium, free_slots, lowest_free)
}
