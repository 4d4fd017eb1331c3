// The first tests of every call: who calls, what is lent, and whether the store is within its bounds and valid.
#![tactic(auto)]

ghost use Rattle.std.specs.Prelude.{◌≡◌, []};
ghost use Rattle.pool.specs.Pool.{pool};
ghost use Rattle.pool.specs.Valid.{capacity_ok, slots_ok, pool_ok};
ghost use Rattle.store.specs.Store.{unit_ok, usable};
ghost use Rattle.reply.specs.Contract.{store_of, call_of};
ghost use Rattle.readiness.specs.Ready.{ready_for};

use answers::sense;
use pool::{BLOCK_BYTES, MOST_BLOCKS, MOST_SLOTS};
use rights::LAST_NEXUS;
use store::Unit;

#[tactic(auto, unfolding(pool::specs::Valid::capacity_ok))]
pub fn capacity_ok(capacity: u64) -> bool
    ensures { result ≡ capacity_ok capacity }
{
    (1..=MOST_BLOCKS).contains(&capacity)
}

#[tactic(auto, unfolding(pool::specs::Valid::slots_ok))]
pub fn slots_ok(slots: usize) -> bool
    ensures { result ≡ slots_ok slots }
{
    (1..=MOST_SLOTS).contains(&slots)
}

#[tactic(auto, unfolding(store::specs::Store::unit_ok))]
fn unit_ok(unit: Unit) -> bool
    ensures { result ≡ unit_ok unit }
{
    capacity_ok(unit.capacity)
        && reservations::standing::valid(&unit.rights)
        && attentions::valid(&unit.attentions)
}

// The owners are passed once, and the marks held to them.
#[tactic(auto, using(crate::proofs::ReadyLaws::slots_few), unfolding(pool::specs::Valid::pool_ok))]
fn pool_ok(capacity: u64, owners: &[u64], marks: &[u64], medium: &[u8]) -> bool
    ensures { result ≡ pool_ok capacity (pool owners.now marks.now medium.now) }
{
    slots_ok(owners.len())
        && medium.len() == BLOCK_BYTES * owners.len()
        && audit::sound(capacity, owners, marks)
}

// Whether the store is within its bounds and in a valid state. The whole of it is checked, the pool last. The unit goes by value: lent, a call took
// 12 instructions more at one slot and 76 at 128 full ones.
#[tactic(auto, unfolding(store::specs::Store::usable))]
pub fn usable(format: u64, unit: Unit, owners: &[u64], marks: &[u64], medium: &[u8]) -> bool
    ensures { result ≡ usable (store_of format unit owners.now marks.now medium.now) }
{
    sense::format_ok(format) && unit_ok(unit) && pool_ok(unit.capacity, owners, marks, medium)
}

// Whether nothing refuses the call before its command is looked at. The state is checked once, and last.
#[tactic(auto, unfolding(crate::specs::Ready::ready_for))]
pub fn ready(
    format: u64,
    unit: Unit,
    owners: &[u64],
    marks: &[u64],
    medium: &[u8],
    nexus: u64,
    cdb: &[u8],
    sense: &[u8],
) -> bool
    ensures { result
        ≡ ready_for
        (store_of format unit owners.now marks.now medium.now)
        (call_of nexus cdb.now [] [] sense.now) }
{
    nexus <= LAST_NEXUS
        && !cdb.is_empty()
        && sense::sense_bytes(format) <= sense.len()
        && usable(format, unit, owners, marks, medium)
}
