// Facts on lists and whole numbers that the proofs of several crates cite. There is no code here.
#![tactic(auto)]
