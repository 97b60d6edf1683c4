// The value of a record and of a chain of records: `complexity` of the Rust, with chains in the place of its iterators. None: it, or one in its
// tree, is above 4,294,967,295.
//
// The three functions call each other, and record numbers fall: a record's first child and the next of its chain are below it. A record is
// worked out once, by the one that names it.
ghost use Rattle.std.specs.Prelude.{◌≡◌};
ghost use Rattle.utf8.specs.Utf8.{code_points};
ghost use Rattle.trees.specs.Nodes.{tree_of_node, chain_of_first};
ghost use Rattle.pattern.specs.Priority.{literal_value};
ghost use Rattle.pattern.specs.Priced.{priced, priced_sum, priced_least, capped};

use trees::nodes::{Node, Shape};
use utf8::code_points;
use utf8::widths::Widths;

// The value of a literal.
fn literal_value(text: &[u8], widths: &Widths) -> Option<u32>
    ensures { result ≡ capped (literal_value text.now (code_points text.now)) }
{
    let points = code_points(text, widths).unwrap_or(text.len());
    u32::try_from(points).ok()?.checked_mul(2)
}

// The value of a record. What has no value below a repetition has none, whatever its min.
#[cycle(chain_least_chain_sum_record_value)]
pub(crate) fn record_value(node: Node<'_>, widths: &Widths) -> Option<u32>
    ensures { result ≡ priced (tree_of_node node.entry) }
{
    match node.shape() {
        Shape::Empty | Shape::Look => Some(0),
        Shape::Literal(text) => literal_value(text, widths),
        Shape::Class(_) => Some(2),
        Shape::Repetition { min, part, .. } => {
            let value = record_value(part, widths)?;
            min.checked_mul(value)
        }
        Shape::Capture(part) => record_value(part, widths),
        Shape::Concat(first) => chain_sum(first, widths),
        Shape::Alternation(first) => chain_least(first, widths),
    }
}

// The sum over a chain, which is walked by its links: an iterator would be a struct and an impl for two loops. (Two walks: a sum begins with 0 and may
// pass 32 bits at each part, a least begins with the first part.)
#[cycle(chain_least_chain_sum_record_value)]
fn chain_sum(first: Option<Node<'_>>, widths: &Widths) -> Option<u32>
    ensures { result ≡ priced_sum (chain_of_first first.entry) }
{
    let mut total = 0u32;
    let mut next = first;
    while let Some(node) = next {
        let value = record_value(node, widths)?;
        total = total.checked_add(value)?;
        next = node.next();
    }
    Some(total)
}

// The least in a chain, 0 if it has no part.
#[cycle(chain_least_chain_sum_record_value)]
fn chain_least(first: Option<Node<'_>>, widths: &Widths) -> Option<u32>
    ensures { result ≡ priced_least (chain_of_first first.entry) }
{
    let Some(head) = first else {
        return Some(0);
    };
    let mut least = record_value(head, widths)?;
    let mut next = head.next();
    while let Some(node) = next {
        let value = record_value(node, widths)?;
        least = least.min(value);
        next = node.next();
    }
    Some(least)
}
