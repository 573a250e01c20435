// What the calls of this library come to, stated over their contracts alone: no code, only theorems (specs/ and proofs/).
#![tactic(auto)]
