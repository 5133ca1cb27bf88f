// Fordham's length is the least number of letters of an element, in specs/ and proofs/. No running code.
#![tactic(auto)]
