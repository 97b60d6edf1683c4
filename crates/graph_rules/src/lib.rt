// Tables, graphs, the build and the readings (docs/RULES.md) as definitions (specs/), with their laws (proofs/). The code is in the crates above; here
// are only the types that definitions and code share.
#![tactic(auto)]

// A reading of a text: the leaf that has matched, and where its match ends.
#[derive(Clone, Copy, PartialEq, Eq)]
pub struct Found {
    pub leaf: usize,
    pub end: usize,
}

// Where a table is not clean: the first of the three rules that it breaks, counted from 1, and the lowest state where. 65,535: it belongs to no state.
// (Numbers both: decision 51 counts the rules, and in the definitions a rule's place is an Option already, none where the rule holds.)
#[derive(Clone, Copy, PartialEq, Eq)]
pub struct Breach {
    pub rule: usize,
    pub state: usize,
}
