// The cases K1 to K12, computed from the definitions: specs/Table.antt has a row for each, proofs/Cases.antt the theorem. The crate has no code.
#![tactic(auto)]
