// The contents of a call sheet: where each call's body stands, and whether the sheet is as long as it says. Functions over the sheet's bytes: a
// struct of them alone would hold no fact.
#![tactic(auto)]

ghost use Rattle.std.specs.Prelude.{◌≡◌, ◌+◌, ◌*◌, ◌^◌, ◌≤◌, ◌<◌};
ghost use Rattle.contents.specs.Contents.{calls, nexus_of, cdb_length, out_length, body_end, bodies_begin, bodies_end, good_sheet};

use fields::numbers;

// 01: "number of calls (one byte, to 32)", "Sheets over 64 KiB".
const MOST_CALLS: u8 = 32;

pub const MOST_BYTES: usize = 65536;

// The number of calls.
#[tactic(auto, unfolding(crate::specs::Contents::calls))]
pub fn calls_in(sheet: &[u8]) -> u8
    ensures { result ≡ calls sheet.now }
{
    numbers::byte(sheet, 0)
}

// The nexus of call i, counted from 0.
#[tactic(auto, unfolding(crate::specs::Contents::nexus_of))]
pub fn nexus_of(sheet: &[u8], i: u8) -> u64
    ensures { result ≡ nexus_of sheet.now i }
{
    u64::from(numbers::byte(sheet, 1 + 4 * usize::from(i)))
}

// How many bytes the CDB of call i has.
#[tactic(auto, unfolding(crate::specs::Contents::cdb_length))]
pub fn cdb_length(sheet: &[u8], i: u8) -> usize
    ensures { (result ≡ cdb_length sheet.now i) × (result < 256) }
{
    usize::from(numbers::byte(sheet, 2 + 4 * usize::from(i)))
}

// How many bytes of data-out call i has.
#[tactic(auto, unfolding(crate::specs::Contents::out_length))]
pub fn out_length(sheet: &[u8], i: u8) -> usize
    ensures { (result ≡ out_length sheet.now i) × (result < 65536) }
{
    numbers::number(sheet, 3 + 4 * usize::from(i), 2) as usize
}

// Where the body of call i ends that begins at a byte.
#[tactic(auto, unfolding(crate::specs::Contents::body_end))]
pub fn body_end(sheet: &[u8], i: u8, at: usize) -> usize
    requires { at < 2 ^ 32 }
    ensures { (result ≡ body_end sheet.now i at) × (result ≤ at + 65790) }
{
    at + (cdb_length(sheet, i) + out_length(sheet, i))
}

// Where the first body begins.
#[tactic(auto, unfolding(crate::specs::Contents::bodies_begin))]
pub fn bodies_begin(sheet: &[u8]) -> usize
    ensures { (result ≡ bodies_begin sheet.now) × (result ≤ 1021) }
{
    1 + 4 * usize::from(calls_in(sheet))
}

// Where the bodies of all calls end.
#[tactic(auto, using(crate::proofs::Turns::bodies_turn, crate::proofs::Turns::bodies_done))]
fn bodies_end(sheet: &[u8]) -> usize
    ensures { result ≡ bodies_end sheet.now 0 (calls sheet.now) (bodies_begin sheet.now) }
{
    let mut at = bodies_begin(sheet);
    for i in 0..calls_in(sheet) {
        at = body_end(sheet, i, at);
    }
    at
}

// Whether the sheet is one to run.
#[tactic(auto, unfolding(crate::specs::Contents::good_sheet))]
pub fn is_good(sheet: &[u8]) -> bool
    ensures { result ≡ good_sheet sheet.now }
{
    !sheet.is_empty()
        && sheet.len() <= MOST_BYTES
        && calls_in(sheet) <= MOST_CALLS
        && bodies_end(sheet) == sheet.len()
}
