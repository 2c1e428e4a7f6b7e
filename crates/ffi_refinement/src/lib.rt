// The dongle that C calls is the device of the definition: theorems.
#![tactic(auto)]
