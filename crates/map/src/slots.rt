// The slots by themselves: where an owner number lies, and freeing all.
ghost use Rattle.std.specs.Prelude.{◌≡◌, ◌+◌, ◌^◌, ◌<◌, ◌≤◌, length};
ghost use Rattle.fields.specs.Bytes.{zeros};

// How far an owner number lies above `first`. For one that lies below it the difference wraps, to more than there can be blocks: so a single
// test tells near numbers from all others.
pub fn above(owner: u64, first: u64) -> u64
    ensures { (first ≤ owner → owner ≡ first + result) × (owner < first → owner + 2 ^ 64 ≡ first + result) }
{
    owner.wrapping_sub(first)
}

// No slot holds a block any more.
pub fn free_all(owners: &mut [u64])
    ensures { owners.new ≡ zeros (length owners.old) }
{
    owners.fill(0);
}
