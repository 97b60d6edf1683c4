// What is printed, as texts: so it is measured and written as any other.
ghost use Rattle.std.specs.Prelude.{◌≡◌, true};
ghost use Rattle.texts.specs.Text.{Wrote, Counts};
ghost use Rattle.print.specs.Print.{line};
ghost use Rattle.print.specs.Parts.{errors_fit, error_lines};

use display::errors::Conflict;
use display::text::Text;
use refusals::Refusal;
use words::graph::Graph;

// A text, and a line end.
fn line<T: Text>(text: &T, out: &mut [u8], at: usize) -> usize
    requires { Counts at (line (T.text text.now)) }
    ensures { Wrote out.old at (line (T.text text.now)) out.new result }
{
    let next = text.write(out, at);
    texts::byte(out, next, b'\n')
}

// Words that begin with so many conflicts.
#[derive(Clone, Copy)]
pub(crate) struct Conflicts<'a> {
    pub words: &'a [u16],
    pub count: usize,
    pub ghost fit: { errors_fit count words.now ≡ true },
}

impl Text for Conflicts<'_> {
    ghost text = { λ conflicts. error_lines conflicts.count conflicts.words.now };

    // A line for each.
    fn write(&self, out: &mut [u8], at: usize) -> usize {
        let mut next = at;
        let mut rest = self.words;
        for _ in 0..self.count {
            next = line(&Conflict { words: rest }, out, next);
            rest = &rest[2 + rest[1] as usize..];
        }
        next
    }
}

// A graph and its conflicts; or a refusal. (No Result: what is built is a struct of its own either way, and each is printed by its own lines.)
#[derive(Clone, Copy)]
pub(crate) enum Printed<'a> {
    Built {
        graph: Graph<'a>,
        conflicts: Conflicts<'a>,
    },
    Refused(Refusal),
}

impl Text for Printed<'_> {
    ghost use Rattle.print.specs.Shown.{printed_text};

    ghost text = { printed_text };

    // The graph's text and a line end, then a line for each conflict; or the line of the refusal.
    fn write(&self, out: &mut [u8], at: usize) -> usize {
        match *self {
            Printed::Built { graph, conflicts } => {
                let next = line(&graph, out, at);
                conflicts.write(out, next)
            }
            Printed::Refused(refusal) => {
                let end = texts::numbered(out, at, b"refused ", u8::from(refusal) as usize);
                texts::byte(out, end, b'\n')
            }
        }
    }
}
