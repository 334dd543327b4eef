// Lists, tests and numbers, of which no law knows stations: definitions in specs/, laws in proofs/. It has no function.
#![tactic(auto)]
