// Decimal numerals, in specs/ and proofs/. No running code.
#![tactic(auto)]
