// Plans and scanning (docs/RULES.md, "Planned run" and "Scan"): running a text by a plan (`run`) and scanning by it (`planned`); and, passed on from
// the crates that hold them, planning (`plan`) and the scan by a graph (`scan`, `list`).
//
// What `run` and `planned` answer is defined in specs/Run.antt; demand 3 is proofs/Demand3.antt.
#![tactic(auto)]

pub mod planned;
pub mod run;

pub use planning::plan;
pub use scans::{list, scan};
