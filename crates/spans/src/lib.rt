// What a walk over all rules of a panel is, and its laws for any test. There is no code here.
#![tactic(auto)]
