// Scanning a text by a graph (docs/RULES.md, "Scan"): one token or gap a call, or as many as a buffer takes.
//
// What each call answers is defined in specs/{Scan,List}.antt; that a scan moves on and ends is in proofs/Scans.antt.
#![tactic(auto)]

pub mod list;
pub mod reader;
pub mod scan;
