// The UNMAP parameter list: its descriptors are taken one after another from the list as lent.
#![tactic(auto)]

ghost use Rattle.std.specs.Prelude.{◌≡◌, false, suc, ◌+◌, ◌*◌, ◌≤◌, ◌<◌, ◌^◌, length, MatchOption};
ghost use Rattle.std.specs.Iterator.{at_most};
ghost use Rattle.pool.specs.Bounds.{most_blocks, most_slots};
ghost use Rattle.pool.specs.Marks.{marks_of};
ghost use Rattle.descriptors.specs.Descriptors.{descriptor_at, most_descriptors, considered, fails, first_failing, some_fails, unmap_all};

use fields::numbers;
use map::range::{self, Range};
use pool::Lba;

// The most descriptors that one list may have.
pub const MOST_DESCRIPTORS: usize = 16;

// Where the list has its block descriptor data length.
pub const DATA_LENGTH_BYTE: u8 = 2;

// A range of blocks to unmap, as the list asks for it: it may reach past every capacity.
#[derive(Clone, Copy)]
pub struct Descriptor {
    pub address: Lba,
    pub count: u64,
}

// The descriptor from a byte of the list on; bytes past the list's end count as 0. The bound keeps the place small.
fn descriptor_at(list: &[u8], at: usize) -> Descriptor
    requires { at < 2 ^ 15 }
    ensures { result ≡ descriptor_at list.now at }
{
    Descriptor {
        address: Lba(numbers::number(list, at, 8)),
        count: numbers::number(list, at + 8, 4),
    }
}

// A reader: the list as lent, the place of the descriptor that comes next, and how many are left to take. Not a range of numbers: the form is
// named for "descriptors are taken one after another from the list as lent".
#[derive(Clone, Copy)]
pub struct DescriptorReader<'a> {
    list: &'a [u8],
    at: usize,
    left: usize,
}

impl<'a> DescriptorReader<'a> {
    // The first so many descriptors of a list: the first of all stands at byte 8.
    fn new(list: &'a [u8], count: usize) -> DescriptorReader<'a>
        ensures { (result.list ≡ list.entry) × (result.at ≡ 8) × (result.left ≡ count) }
    {
        DescriptorReader {
            list,
            at: 8,
            left: count,
        }
    }
}

impl<'a> Iterator for DescriptorReader<'a> {
    type Item = Descriptor;

    ghost can_next = { λ s. s.at + 16 * s.left < 2 ^ 15 };

    ghost next_gives = { λ s r t. MatchOption r (s.left ≡ 0)
        (λ d. (d ≡ descriptor_at s.list.now s.at) × (s.left ≡ suc t.left) × (t.at ≡ s.at + 16) × (t.list ≡ s.list)) };

    ghost remaining = { λ s. at_most s.left };

    // As a call it costs an UNMAP of 16 descriptors some hundred instructions more.
    #[inline(always)]
    fn next(&mut self) -> Option<Descriptor> {
        self.left = self.left.checked_sub(1)?;
        let descriptor = descriptor_at(self.list, self.at);
        self.at += 16;
        Some(descriptor)
    }
}

// How many whole descriptors the list's own length and the CDB's list length leave.
#[tactic(auto, unfolding(crate::specs::Descriptors::considered, fields::specs::Bits::number_in))]
pub fn considered(length: u64, list: &[u8]) -> usize
    ensures { result ≡ considered length list.now }
{
    let told = numbers::number(list, usize::from(DATA_LENGTH_BYTE), 2);
    let given = length.saturating_sub(8);
    (told.min(given) / 16) as usize
}

// Whether a descriptor reaches past the capacity.
#[tactic(auto, unfolding(crate::specs::Descriptors::fails))]
fn fails(capacity: u64, descriptor: Descriptor) -> bool
    ensures { result ≡ fails capacity descriptor }
{
    range::past_end(capacity, descriptor.address, descriptor.count)
}

// The address of the first of the descriptors that reaches past the capacity.
pub fn first_failing(capacity: u64, list: &[u8], count: usize) -> Option<Lba>
    requires { count ≤ most_descriptors }
    ensures { result ≡ first_failing capacity list.now 8 count }
{
    for descriptor in DescriptorReader::new(list, count) {
        if fails(capacity, descriptor) {
            return Some(descriptor.address);
        }
    }
    None
}

// Unmaps the blocks of the descriptors, one descriptor after another.
pub fn unmap_all(owners: &mut [u64], marks: &mut [u64], list: &[u8], count: usize, capacity: u64)
    requires { (count ≤ most_descriptors)
        × ((capacity ≤ most_blocks) × (some_fails capacity list.now 8 count ≡ false))
        × (length owners.old ≤ most_slots)
        × (marks.old ≡ marks_of owners.old) }
    ensures { (owners.new ≡ unmap_all owners.old list.now 8 count)
        × (marks.new ≡ marks_of owners.new) }
{
    for descriptor in DescriptorReader::new(list, count) {
        let range = Range {
            first: descriptor.address,
            count: descriptor.count,
        };
        map::unmap::unmap_blocks(owners, marks, range);
    }
}
