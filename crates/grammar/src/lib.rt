// The grammar and what reading answers: definitions in specs/, theorems in proofs/. No code.
#![tactic(auto)]
