// The lexer graph: the build from a table's words or image to the graph's words and the conflicts (`new`, `from_image`); and, passed on from the
// crates `readings` and `clean`, the readings of a text by a table and by a graph (`read_table`, `read_graph`), and whether a table is clean (`clean`).
//
// The rules are defined in graph_rules/specs; what a build answers and leaves in the buffers, in specs/New.antt. The promises on the words that a build
// returns are proofs/{ReadingsAlike,AllReached,NoEqualStates}.antt.
#![tactic(auto)]

pub mod image;
pub mod new;

pub use clean::clean;
pub use readings::{read, read_table};
