// The build of a table's graph, and the conflicts that it finds.
ghost use Rattle.std.specs.Prelude.{◌≡◌, [], ◌∷◌};
ghost use Rattle.graph.specs.New.{count_values, built_report, new_of, image_of};

use crate::told::{Numbers, Report, told};
use graph::new::Counts;

impl Numbers<4> for Counts {
    ghost numbers = { count_values };

    fn numbers(self) -> [usize; 4] {
        [self.states, self.root, self.errors, self.words]
    }
}

// `new`: the graph and the errors of a table.
#[unsafe(no_mangle)]
pub extern "C" fn balthwyr_build(
    table: &[u16],
    graph: &mut [u16],
    errors: &mut [u16],
    states: &mut usize,
    root: &mut usize,
    count: &mut usize,
    words: &mut usize,
) -> u8
    ensures errors_value { built_report (new_of table.now graph.old errors.old).answer ≡ record { refusal = result; values = states.new ∷ root.new ∷ count.new ∷ words.new ∷ [] } }
    ensures graph_after { graph.new ≡ (new_of table.now graph.old errors.old).graph }
    ensures errors_after { errors.new ≡ (new_of table.now graph.old errors.old).errors }
{
    let told: Report<4> = told(graph::new::new(table, graph, errors));
    [*states, *root, *count, *words] = told.values;
    told.refusal
}

// `from_image`: the same of a table's image. (For C each is a function of its own.)
#[unsafe(no_mangle)]
pub extern "C" fn balthwyr_build_image(
    image: &[u8],
    graph: &mut [u16],
    errors: &mut [u16],
    states: &mut usize,
    root: &mut usize,
    count: &mut usize,
    words: &mut usize,
) -> u8
    ensures errors_value { built_report (image_of image.now graph.old errors.old).answer ≡ record { refusal = result; values = states.new ∷ root.new ∷ count.new ∷ words.new ∷ [] } }
    ensures graph_after { graph.new ≡ (image_of image.now graph.old errors.old).graph }
    ensures errors_after { errors.new ≡ (image_of image.now graph.old errors.old).errors }
{
    let told: Report<4> = told(graph::image::from_image(image, graph, errors));
    [*states, *root, *count, *words] = told.values;
    told.refusal
}
