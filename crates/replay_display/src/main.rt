// Replays the stored texts of graphs and lines of errors (docs/ORACLE.md, "display.bin"): every one is compared with what crate `display`
// writes.
#![tactic(auto)]

mod text_cases;

use vectors::report::Kinds;

fn main() {
    let kinds = Kinds {
        names: b"graphs\nerror lines\n",
        leading: 2,
    };
    vectors::replay::run(kinds, |turn| alike(turn.case, turn.number));
}

// The case with number i.
fn alike(case: &[u8], i: usize) -> bool {
    match vectors::cases::kind(case) {
        0 => text_cases::alike(display::display, case, i),
        1 => text_cases::alike(display::error_line, case, i),
        _ => false,
    }
}
