// The store, as a meaning: what one call answers and leaves, and what a fresh store is.
// No code: the unit's record stands here, `step`, `fresh` and `room_of` in specs/, their laws in proofs/.
#![tactic(auto)]

use rights::{NEXUSES, Rights};

// The record of one unit: all that everybody may know of it, and what waits for each nexus.
#[repr(C)]
#[derive(Clone, Copy)]
pub struct Unit {
    pub capacity: u64,
    pub rights: Rights,
    pub attentions: [u8; NEXUSES],
}
