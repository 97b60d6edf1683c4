// A pattern tree: its priority, and the greedy test.
ghost use Rattle.std.specs.Prelude.{◌≡◌, [], ◌∷◌};
ghost use Rattle.pattern.specs.Priority.{priority_of, priority_report, greedy_of, greedy_report};

use crate::told::{Report, told};

// `priority`.
#[unsafe(no_mangle)]
pub extern "C" fn balthwyr_priority(tree: &[u32], bytes: &[u8], value: &mut usize) -> u8
    ensures { priority_report (priority_of tree.now bytes.now) ≡ record { refusal = result; values = value.new ∷ [] } }
{
    let told: Report<1> = told(pattern::priority(tree, bytes));
    [*value] = told.values;
    told.refusal
}

// `check_for_greedy_all`.
#[unsafe(no_mangle)]
pub extern "C" fn balthwyr_check_for_greedy_all(tree: &[u32], bytes: &[u8], found: &mut usize) -> u8
    ensures { greedy_report (greedy_of tree.now bytes.now) ≡ record { refusal = result; values = found.new ∷ [] } }
{
    let told: Report<1> = told(pattern::check_for_greedy_all(tree, bytes));
    [*found] = told.values;
    told.refusal
}
