// What the program comes to from text to text, stated over its contract alone: no code, only theorems (specs/ and proofs/).
#![tactic(auto)]
