// A message that is written and read back is the same message: theorems.
#![tactic(auto)]
