// The marked cases of document 01: one table in specs/Table.antt, one theorem in proofs/Holds.antt. No code.
#![tactic(auto)]
