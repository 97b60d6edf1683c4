// A text run by a plan (docs/RULES.md, "Planned run"): the self run by its mask, then marks, then the table, mask or comparisons that the plan names,
// the end target last.
//
// The run is defined in crates/plan_rules. What of a graph is worked out once, before its texts are run, is in specs/Prepared.antt.
#![tactic(auto)]

mod comparisons;
pub mod edge;
pub mod planned;
pub mod prepare;
pub mod run;
mod self_run;
mod step;
