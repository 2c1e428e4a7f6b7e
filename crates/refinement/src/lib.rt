// The device in code is the device of the definition: theorems.
#![tactic(auto)]
