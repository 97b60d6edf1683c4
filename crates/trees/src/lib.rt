// The pattern tree (docs/RULES.md, "Pattern trees"): its records, six words each, and refusal 10. Its words and the bytes of its literals are lent
// and only read. Records, tree and refusal are defined in specs/Tree.antt; specs/Held.antt says what the code's types stand for.
//
// `tree` checks the words. `nodes` has the view of words that are a tree: whoever holds one reads records without a check.
#![tactic(auto)]

pub mod kind;
pub mod nodes;
pub mod tree;
