// Numbers in bytes, most significant first, bytes in lent buffers, and pages that grow.
#![tactic(auto)]

pub mod bytes;
pub mod numbers;
pub mod page;
