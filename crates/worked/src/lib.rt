// The worked examples of the papers, stated in specs/ and proved in proofs/ by computation. No running code.
#![tactic(auto)]
