// What section 9 of document 01 claims, said of the calls: statements in specs/, laws in proofs/. It has no function of its own.
#![tactic(auto)]
