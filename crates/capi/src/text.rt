// The text of a graph, and the lines of its conflicts.
ghost use Rattle.std.specs.Prelude.{◌≡◌, [], ◌∷◌};
ghost use Rattle.display.specs.Answers.{shown_report, display_call, line_call};

use crate::told::{Report, told};

// `display`.
#[unsafe(no_mangle)]
pub extern "C" fn balthwyr_display(graph: &[u16], out: &mut [u8], length: &mut usize) -> u8
    ensures out_value { shown_report (display_call graph.now out.old).answer ≡ record { refusal = result; values = length.new ∷ [] } }
    ensures out_after { out.new ≡ (display_call graph.now out.old).buffer }
{
    let told: Report<1> = told(display::display(graph, out));
    [*length] = told.values;
    told.refusal
}

// `error_line`.
#[unsafe(no_mangle)]
pub extern "C" fn balthwyr_error_line(errors: &[u16], out: &mut [u8], length: &mut usize) -> u8
    ensures out_value { shown_report (line_call errors.now out.old).answer ≡ record { refusal = result; values = length.new ∷ [] } }
    ensures out_after { out.new ≡ (line_call errors.now out.old).buffer }
{
    let told: Report<1> = told(display::error_line(errors, out));
    [*length] = told.values;
    told.refusal
}
