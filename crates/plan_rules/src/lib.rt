// The plan of a graph on a mask store, and the run by it: definitions (specs/) and what follows from them (proofs/). The code is in the crates
// `plan_rows`, `runner` and `plans`; here are only the types that definitions and code share.
#![tactic(auto)]

// How a byte is tested for an edge where no table is used: the self edge is run before, by its mask; another by comparisons or by a mask.
#[derive(Clone, Copy, PartialEq, Eq)]
pub enum Way {
    BySelf,
    ByTests,
    ByMask,
}

// What an edge word of a plan says: no edge to test (none there, or the self edge), comparisons, the mask of a number, or the state's table.
#[derive(Clone, Copy, PartialEq, Eq)]
pub enum EdgeWord {
    Nothing,
    Tests,
    Mask(usize),
    Table,
}
