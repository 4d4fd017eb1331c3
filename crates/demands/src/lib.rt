// The theorems about one call and about histories of calls. No code: what is proved stands in specs/ and proofs/.
#![tactic(auto)]
