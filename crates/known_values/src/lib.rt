// 01's sheet of known values, as one statement: specs/ and proofs/.
#![tactic(auto)]
