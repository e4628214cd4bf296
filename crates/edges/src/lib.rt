// Nothing runs here: the crate holds document 01 at its edges, in specs/ row by row and in proofs/ one theorem for each list.

#![tactic(auto)]
