// Planning a graph on a mask store (docs/RULES.md, "Plan"). What it answers, and leaves in the buffer and in the store, is defined in
// specs/Plan.antt, over the plan of plan_rules/specs/Plan.antt.
#![tactic(auto)]

pub mod plan;
