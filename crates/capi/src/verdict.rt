// Whether a table is clean.
ghost use Rattle.std.specs.Prelude.{◌≡◌, [], ◌∷◌};
ghost use Rattle.clean.specs.Answers.{breach_values, clean_report, clean_of};

use crate::told::{Numbers, Report, told};
use graph_rules::Breach;

impl Numbers<2> for Option<Breach> {
    ghost numbers = { breach_values };

    fn numbers(self) -> [usize; 2] {
        match self {
            Some(breach) => [breach.rule, breach.state],
            None => [0, 0],
        }
    }
}

// `clean`.
#[unsafe(no_mangle)]
pub extern "C" fn balthwyr_clean(table: &[u16], rule: &mut usize, state: &mut usize) -> u8
    ensures { clean_report (clean_of table.now) ≡ record { refusal = result; values = rule.new ∷ state.new ∷ [] } }
{
    let told: Report<2> = told(clean::clean(table));
    [*rule, *state] = told.values;
    told.refusal
}
