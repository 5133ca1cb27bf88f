// Thompson's group F: words, chains, maps and reduced forms, in specs/ and proofs/. No running code.
#![tactic(auto)]
