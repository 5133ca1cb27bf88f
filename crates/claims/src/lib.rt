// The demands of the papers, stated in specs/ and proved in proofs/. No running code.
#![tactic(auto)]
