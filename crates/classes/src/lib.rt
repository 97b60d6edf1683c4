// Byte classes (docs/RULES.md, "Classes and comparisons"): flags in, maximal ranges and comparisons out, their cost. Nothing here knows of a graph.
//
// What each call answers is defined in specs/Classes.antt; what follows from the definitions is in proofs/.
#![tactic(auto)]

pub mod byte_class;
