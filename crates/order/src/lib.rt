// Orders of tests, over any type of answer. No code: what an order means stands in specs/, its laws in proofs/.
#![tactic(auto)]
