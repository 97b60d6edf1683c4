// The text of a state (`StateData` in the Rust).
ghost use Rattle.std.specs.Prelude.{◌++◌, ◌<◌, get_or};
ghost use Rattle.texts.specs.Text.{after, bytes, Wrote, Counts};
ghost use Rattle.graph_rules.specs.Graph.{state_of, graph_from};
ghost use Rattle.display.specs.Display.{mark_text, first_line, edge_line, edge_lines, end_lines, state_text};

use crate::byte_class;
use words::END;
use words::graph::Graph;

// A mark: its name and its leaf; nothing without a leaf.
fn mark(out: &mut [u8], at: usize, name: &[u8], leaf: Option<usize>) -> usize
    requires { Counts at (mark_text name.now leaf) }
    ensures { Wrote out.old at (mark_text name.now leaf) out.new result }
{
    let Some(leaf) = leaf else {
        return at;
    };
    let next = texts::numbered(out, at, name, leaf);
    texts::pair(out, next, b')', b' ')
}

// The first line: the state's name, and its marks.
fn first_line(
    out: &mut [u8],
    at: usize,
    s: usize,
    accept: Option<usize>,
    early: Option<usize>,
) -> usize
    requires { Counts at (first_line s accept early) }
    ensures { Wrote out.old at (first_line s accept early) out.new result }
{
    let next = texts::numbered(out, at, b"  state", s);
    let next = texts::bytes(out, next, b" => StateData(");
    let next = mark(out, next, b"accept(", accept);
    let next = mark(out, next, b"early(", early);
    texts::bytes(out, next, b") {")
}

// The line of an edge, after a line end.
fn edge_line(out: &mut [u8], at: usize, class: &[bool; 256], u: usize) -> usize
    requires { Counts at (bytes "\n" ++ edge_line class.now u) }
    ensures { Wrote out.old at (bytes "\n" ++ edge_line class.now u) out.new result }
{
    let next = texts::bytes(out, at, b"\n    ");
    let next = byte_class::class(out, next, class);
    texts::numbered(out, next, b" => state", u)
}

// The lines of the byte edges of state s, each after a line end.
fn edge_lines(out: &mut [u8], at: usize, graph: Graph<'_>, s: usize) -> usize
    requires s_bound { s < get_or graph.words.now 0 0 }
    requires counts { Counts at (after (bytes "\n") (edge_lines (get_or graph.words.now 0 0) (state_of (graph_from graph.words.now) s))) }
    ensures { Wrote out.old at (after (bytes "\n") (edge_lines (get_or graph.entry.words.now 0 0) (state_of (graph_from graph.entry.words.now) s))) out.new result }
{
    let n = graph.states();
    let found = edges::targets(graph, s);
    let mut next = at;
    for u in 0..n {
        if found[u] {
            let class = edges::class_to(graph, s, u);
            next = edge_line(out, next, &class, u);
        }
    }
    next
}

// The line of the end edge, after a line end; nothing without an end edge.
fn end_line(out: &mut [u8], at: usize, target: Option<usize>) -> usize
    requires { Counts at (after (bytes "\n") (end_lines target)) }
    ensures { Wrote out.old at (after (bytes "\n") (end_lines target)) out.new result }
{
    let Some(target) = target else {
        return at;
    };
    texts::numbered(out, at, b"\n    EOI => state", target)
}

// The text of state s: its marks, each class and target, EOI.
pub(crate) fn state(out: &mut [u8], at: usize, graph: Graph<'_>, s: usize) -> usize
    requires s_bound { s < get_or graph.words.now 0 0 }
    requires counts { Counts at (state_text (get_or graph.words.now 0 0) s (state_of (graph_from graph.words.now) s)) }
    ensures { Wrote out.old at (state_text (get_or graph.entry.words.now 0 0) s (state_of (graph_from graph.entry.words.now) s)) out.new result }
{
    let next = first_line(out, at, s, graph.accept(s), graph.early(s));
    let next = edge_lines(out, next, graph, s);
    let next = end_line(out, next, graph.target(s, END));
    texts::bytes(out, next, b"\n  }")
}
