// What a command leaves beside the lent buffers: the types stand here, what contracts say of them in specs/, their laws in proofs/.
#![tactic(auto)]

use answers::Answer;
use store::Unit;

pub mod cut;

// What a call leaves. No `Result`: every answer comes with a unit, which a refusal may have changed (13 takes away what waited), and C is told all three.
#[derive(Clone, Copy)]
pub struct Outcome {
    pub answer: Answer,
    pub returned: usize,
    pub unit: Unit,
}
