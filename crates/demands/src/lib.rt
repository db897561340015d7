// What the promises of reading, of writing and of the functions on names come to: the statements in proofs/Demands.antt. No code.
#![tactic(auto)]
