// The numbers of document 01 that are to be proved: `specs/Cases.antt` has the table and the statement
// over it, `proofs/Holds.antt` the proof. There is no code here.
#![tactic(auto)]
