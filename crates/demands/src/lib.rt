// The user's demands as theorems over the calls of the other crates: no code of its own.
#![tactic(auto)]
