// Lists, sets of small numbers and worklists: definitions (specs/) and laws (proofs/) that belong to no layer. The crate has no code.
#![tactic(auto)]
