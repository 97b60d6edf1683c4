// Replays the stored answers on literals and pattern trees (docs/ORACLE.md, "priorities.bin"): every value is compared with what crate
// `pattern` answers.
#![tactic(auto)]

mod literals;
mod tree_cases;

use vectors::report::Kinds;

fn main() {
    let kinds = Kinds {
        names: b"rows of 256 literals\nstrings\ntrees\n",
        leading: 3,
    };
    vectors::replay::run(kinds, |turn| alike(turn.case));
}

fn alike(case: &[u8]) -> bool {
    match vectors::cases::kind(case) {
        0 => literals::row_alike(case),
        1 => literals::string_alike(case),
        2 => tree_cases::alike(case),
        _ => false,
    }
}
