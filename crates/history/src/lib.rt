// One event's status byte and its history: definitions (specs/) and theorems (proofs/), no code.
#![tactic(auto)]
