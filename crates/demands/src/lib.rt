// Every promise in one place: statements in specs/, witnesses in proofs/. No code.
#![tactic(auto)]
