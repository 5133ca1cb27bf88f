// The demands said of the functions themselves, and one theorem of all claims, in specs/ and proofs/. No running code.
#![tactic(auto)]
