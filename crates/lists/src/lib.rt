// Facts about lists, for the crates above to cite; they stand in specs/ and proofs/. No running code.
#![tactic(auto)]
