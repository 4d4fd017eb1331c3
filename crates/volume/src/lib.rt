// The volume: the map as a product of its own. Entry points that take any input, test it in one order and say what was wrong.
// The order: bounds (capacity, slots, medium), the owners, the marks, then for a read or a write too many blocks, the range, the bytes lent,
// the room.
#![tactic(auto)]

ghost use Rattle.std.specs.Prelude.{◌≡◌, ◌≤◌, Err, MatchResult};
ghost use Rattle.pool.specs.Bounds.{most_blocks};
ghost use Rattle.pool.specs.Pool.{pool};
ghost use Rattle.volume.specs.Volume as Volume;

use map::range::{Range, Transfer};
pub use marks::FreeRoom;
use marks::Words;
use pool::{BLOCK_BYTES, Flaw, Lba, MARK_WORDS, MOST_BLOCKS, MOST_SLOTS, MOST_TRANSFER};

// What was wrong with a call.
#[derive(Clone, Copy)]
pub enum Trouble {
    BadBounds,
    Invalid(Flaw),
    Mismarked,
    TooMany,
    OutOfRange,
    Short,
    NoRoom,
}

// Capacity and slots within their bounds. `readiness` has these tests too, above the commands: the volume stands without them.
#[tactic(auto, using(crate::proofs::Answering::capacity_low, crate::proofs::Answering::capacity_high, crate::proofs::Answering::slots_low, crate::proofs::Answering::slots_high, crate::proofs::Answering::bounds_good))]
fn bounded(capacity: u64, slots: usize) -> Result<(), Trouble>
    ensures { result ≡ Volume.bounds capacity slots }
{
    if capacity < 1 || capacity > MOST_BLOCKS {
        return Err(Trouble::BadBounds);
    }
    if slots < 1 || slots > MOST_SLOTS {
        return Err(Trouble::BadBounds);
    }
    Ok(())
}

// What is tested of every call that has a pool. One pass tells whether owners and marks are right; what is wrong is looked for only where
// something is: with the owners, and where nothing is with them, it is the marks.
#[tactic(auto, using(crate::proofs::Answering::bounds_has, crate::proofs::Answering::usable_bounds, crate::proofs::Answering::usable_medium, crate::proofs::Answering::usable_sound, crate::proofs::Answering::usable_mismarked, crate::proofs::Answering::usable_invalid))]
fn usable(capacity: u64, owners: &[u64], marks: &[u64], medium: &[u8]) -> Result<(), Trouble>
    ensures { result ≡ Volume.usable capacity (pool owners.now marks.now medium.now) }
{
    bounded(capacity, owners.len())?;
    if medium.len() != BLOCK_BYTES * owners.len() {
        return Err(Trouble::BadBounds);
    }
    if audit::sound(capacity, owners, marks) {
        return Ok(());
    }
    match audit::check(capacity, owners) {
        Ok(()) => Err(Trouble::Mismarked),
        Err(flaw) => Err(Trouble::Invalid(flaw)),
    }
}

// What is tested of a read or a write besides; what passes is handed out as what the map takes.
#[tactic(auto, using(crate::proofs::Answering::transfer_many, crate::proofs::Answering::transfer_range, crate::proofs::Answering::transfer_short, crate::proofs::Answering::transfer_done))]
fn transfer(capacity: u64, lba: Lba, count: usize, lent: usize) -> Result<Transfer, Trouble>
    requires { capacity ≤ most_blocks }
    ensures { MatchResult result
        (λ transfer. (Volume.done ≡ Volume.transfer capacity lba.0 count lent)
        × (transfer.range.first ≡ lba)
        × (transfer.range.count ≡ count))
        (λ trouble. Err trouble ≡ Volume.transfer capacity lba.0 count lent) }
{
    if count > MOST_TRANSFER {
        return Err(Trouble::TooMany);
    }
    let Some(transfer) = Transfer::within(capacity, lba, count as u64) else {
        return Err(Trouble::OutOfRange);
    };
    if lent < BLOCK_BYTES * count {
        return Err(Trouble::Short);
    }
    Ok(transfer)
}

// The first bytes of `out` become those of the blocks; a refusal leaves it.
#[tactic(auto, using(crate::proofs::Answering::read_unusable, crate::proofs::Answering::read_refused, crate::proofs::Answering::read_done, crate::proofs::Answering::usable_capacity))]
pub fn read(
    capacity: u64,
    owners: &[u64],
    marks: &[u64],
    medium: &[u8],
    lba: Lba,
    count: usize,
    out: &mut [u8],
) -> Result<(), Trouble>
    ensures { Volume.read result out.new
        ≡ Volume.read_of capacity (pool owners.now marks.now medium.now) lba.0 count out.old }
{
    usable(capacity, owners, marks, medium)?;
    let transfer = transfer(capacity, lba, count, out.len())?;
    map::read::read_blocks(owners, medium, transfer, out);
    Ok(())
}

// The blocks get their places and their bytes; a refusal leaves all.
#[tactic(auto, using(crate::proofs::Answering::write_unusable, crate::proofs::Answering::write_refused, crate::proofs::Answering::write_done, crate::proofs::Answering::write_full, crate::proofs::Answering::usable_capacity))]
pub fn write(
    capacity: u64,
    owners: &mut [u64],
    marks: &mut [u64],
    medium: &mut [u8],
    lba: Lba,
    count: usize,
    bytes: &[u8],
) -> Result<(), Trouble>
    ensures { Volume.wrote result owners.new marks.new medium.new
        ≡ Volume.write_of capacity (pool owners.old marks.old medium.old) lba.0 count bytes.now }
{
    usable(capacity, owners, marks, medium)?;
    let transfer = transfer(capacity, lba, count, bytes.len())?;
    if !map::write::write_blocks(owners, marks, medium, transfer, bytes) {
        return Err(Trouble::NoRoom);
    }
    Ok(())
}

// The slots of the range are freed and their bytes stay; a refusal leaves all.
#[tactic(auto, using(crate::proofs::Answering::unmap_unusable, crate::proofs::Answering::unmap_beyond, crate::proofs::Answering::unmap_done, crate::proofs::Answering::may_unmap_law, crate::proofs::Answering::usable_capacity))]
pub fn unmap(
    capacity: u64,
    owners: &mut [u64],
    marks: &mut [u64],
    medium: &[u8],
    lba: Lba,
    count: u64,
) -> Result<(), Trouble>
    ensures { Volume.left result owners.new marks.new
        ≡ Volume.unmap_of capacity (pool owners.old marks.old medium.now) lba.0 count }
{
    usable(capacity, owners, marks, medium)?;
    let Some(range) = Range::within(capacity, lba, count) else {
        return Err(Trouble::OutOfRange);
    };
    map::unmap::unmap_blocks(owners, marks, range);
    Ok(())
}

// No slot holds a block, and none is marked. The medium is neither taken nor touched.
#[tactic(auto, using(crate::proofs::Answering::fresh_refused, crate::proofs::Answering::fresh_words, crate::proofs::Answering::fresh_done))]
pub fn fresh(capacity: u64, owners: &mut [u64], marks: &mut [u64]) -> Result<(), Trouble>
    ensures { Volume.left result owners.new marks.new
        ≡ Volume.fresh_of capacity owners.old marks.old }
{
    bounded(capacity, owners.len())?;
    if marks.len() != MARK_WORDS {
        return Err(Trouble::BadBounds);
    }
    map::slots::free_all(owners);
    marks::clear_all(marks);
    Ok(())
}

// The room, read off the marks. Nothing changes.
#[tactic(auto, using(crate::proofs::Answering::room_refused, crate::proofs::Answering::room_told, crate::proofs::Answering::marks_two, crate::proofs::Answering::marked_most))]
pub fn room(
    capacity: u64,
    owners: &[u64],
    marks: &[u64],
    medium: &[u8],
) -> Result<FreeRoom, Trouble>
    ensures { result ≡ Volume.room_of capacity (pool owners.now marks.now medium.now) }
{
    usable(capacity, owners, marks, medium)?;
    Ok(Words::of(marks).room(owners.len()))
}
