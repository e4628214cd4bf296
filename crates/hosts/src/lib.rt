// Nothing runs here: the crate holds demands 1 and 3 for what a host calls, in specs/ what they say and in proofs/ why they hold.

#![tactic(auto)]
