// Replays the stored answers on classes and mask stores (docs/ORACLE.md, "classes.bin"): every value is compared with what crates `classes`
// and `mask_store` answer.
#![tactic(auto)]

mod byte_class;
mod masks;

use vectors::report::Kinds;

fn main() {
    let kinds = Kinds {
        names: b"classes\ncount_ops\nstores\n",
        leading: 3,
    };
    vectors::replay::run(kinds, |turn| alike(turn.case, turn.number));
}

// The case with number i. Every second store is lent.
fn alike(case: &[u8], i: usize) -> bool {
    match vectors::cases::kind(case) {
        0 => byte_class::alike(case),
        1 => byte_class::ops_alike(case),
        2 if i % 2 == 1 => masks::alike(case, mask_store::add_by_loan),
        2 => masks::alike(case, mask_store::add_by_value),
        _ => false,
    }
}
