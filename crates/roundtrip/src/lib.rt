// What is written is read back, and rows in any order are one sheet: no code, only theorems (specs/ and proofs/).
#![tactic(auto)]
