// The device as a definition, and the demands on it as theorems: specs/ and proofs/.
#![tactic(auto)]
