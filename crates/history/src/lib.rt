// Nothing runs here: the crate holds demand 3, in specs/ what it says and in proofs/ why it holds.

#![tactic(auto)]
