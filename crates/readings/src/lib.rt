// The readings of a text by a table and by a graph (docs/RULES.md, "Reading by the table" and "Reading by the graph"). What a call answers is defined
// in specs/Answers.antt, over the walks of graph_rules/specs/Read.antt. That the two are alike for a clean table and its graph is proved in the
// crates above.
#![tactic(auto)]

pub mod read;
pub mod read_table;
pub mod walk;
