// The greedy test of one record: `has_greedy_all` of the Rust, where what the records below it told is at hand.
ghost use Rattle.std.specs.Prelude.{◌≡◌, false, replicate};
ghost use Rattle.trees.specs.Nodes.{tree_of_shape};
ghost use Rattle.pattern.specs.Priority.{is_dot};
ghost use Rattle.pattern.specs.Greedy.{no_note, greedy_part, chain_has};

use trees::nodes::{Node, Shape};
use trees::tree::NUMBERS;

// What a record told: that it is one of the six of `DOT_HIRS`, and that the chain that begins with it has a greedy unbounded repetition of one.
#[derive(Clone, Copy)]
pub(crate) struct Note {
    pub dot: bool,
    pub found: bool,
}

// None has told yet.
pub(crate) fn no_notes() -> [Note; NUMBERS]
    ensures { result ≡ replicate 1025 no_note }
{
    [Note {
        dot: false,
        found: false,
    }; NUMBERS]
}

pub(crate) fn is_dot(shape: Shape<'_>) -> bool
    ensures { result ≡ is_dot (tree_of_shape shape.entry) }
{
    match shape {
        Shape::Class(dot) => dot,
        _ => false,
    }
}

// A greedy unbounded repetition of a dot, or a record that is looked into and has one inside.
pub(crate) fn greedy_part(shape: Shape<'_>, notes: &[Note; NUMBERS]) -> bool
    ensures { result ≡ greedy_part shape.entry notes.now }
{
    match shape {
        Shape::Repetition {
            greedy,
            unbounded,
            part,
            ..
        } => notes[part.number].dot && unbounded && greedy,
        Shape::Capture(part) => notes[part.number].found,
        Shape::Concat(first) | Shape::Alternation(first) => chain_has(first, notes),
        _ => false,
    }
}

// Whether a chain has one; where it has ended, it has none.
pub(crate) fn chain_has(first: Option<Node<'_>>, notes: &[Note; NUMBERS]) -> bool
    ensures { result ≡ chain_has first.entry notes.now }
{
    match first {
        Some(node) => notes[node.number].found,
        None => false,
    }
}
