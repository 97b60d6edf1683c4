// What planning chooses (docs/RULES.md, "Plan"): for each state, ascending, the self edge by a mask, then a table above two byte edges, else each
// other edge by a mask or by comparisons. The choices of the Rust's fork.rs and fast_loop.rs.
//
// They are defined in crates/plan_rules; here are the functions that make them from well-formed graph words (refusal 12).
#![tactic(auto)]

pub mod fork;
pub mod layout;
pub mod needs;
pub mod rows;
pub mod way;
