// What a program that replays a list prints, written into a lent buffer. The text is defined in specs/Report.antt.
//
// A place is bounded in the contract of each function that writes from it, and not by a type: it moves on with each write, so that a type would owe its
// bound again at each.
ghost use Rattle.std.specs.Prelude.{◌≡◌, ◌+◌, ◌<◌, ◌≤◌, min, length, slice_index_or, replicate};
ghost use Rattle.std.proofs.lemmas.List.Edits.{sets};
ghost use Rattle.io.specs.Counts.{IsPrefixLen};
ghost use Rattle.texts.specs.Text.{Wrote};
ghost use Rattle.vectors.specs.Walk.{no_cases};
ghost use Rattle.vectors.specs.Report.{kind_text, name_byte, after_byte, kind_lines, first_text, first_line, checksum, end_line, reported};

use crate::walk::{Tally, Walk};

// The kinds of a list: their names, in their order, each with its line end; and how many of the first are leading ones, whose cases belong to themselves.
#[derive(Clone, Copy)]
pub struct Kinds<'a> {
    pub names: &'a [u8],
    pub leading: usize,
    pub ghost short: { length names.now ≤ 1024 },
}

// The tally of a kind; no cases for one that is not counted.
fn tally(tallies: &[Tally], kind: usize) -> Tally
    ensures { result ≡ slice_index_or tallies.now kind no_cases }
{
    match tallies.get(kind) {
        Some(tally) => *tally,
        None => Tally::NONE,
    }
}

// What stands behind the name of a kind.
fn kind_text(out: &mut [u8], at: usize, w: Walk, kind: usize) -> usize
    requires { at < 1048576 }
    ensures wrote { Wrote out.old at (kind_text w kind) out.new result }
    ensures upper_bound { result ≤ at + 64 }
{
    let tally = tally(&w.tallies, kind);
    let next = texts::numbered(out, at, b" ", tally.alike);
    let next = texts::numbered(out, next, b" alike, ", tally.differ);
    texts::bytes(out, next, b" differ\n")
}

// A byte of the kinds' names; at its line end, what stands behind the name of a kind.
fn name_byte(out: &mut [u8], at: usize, b: u8, w: Walk, kind: usize) -> usize
    requires { at < 1048576 }
    ensures wrote { Wrote out.old at (name_byte b w kind) out.new result }
    ensures upper_bound { result ≤ at + 64 }
{
    if b == b'\n' {
        return kind_text(out, at, w, kind);
    }
    texts::byte(out, at, b)
}

// The kind whose name goes on, or the next one, after a byte.
fn after_byte(b: u8, kind: usize) -> usize
    requires { kind < 1024 }
    ensures { (result ≡ after_byte b kind) × (result ≤ kind + 1) }
{
    kind + usize::from(b == b'\n')
}

// The lines of all kinds, whose names are given, each with its line end. (One text: its length is known where it is written; that of a list of texts
// would have to be summed up.)
fn kind_lines(out: &mut [u8], kinds: Kinds<'_>, w: Walk) -> usize
    ensures wrote { Wrote out.old 0 (kind_lines kinds.entry.names.now w 0) out.new result }
    ensures upper_bound { result ≤ 65536 }
{
    let mut next = 0;
    let mut kind = 0;
    for b in kinds.names {
        next = name_byte(out, next, *b, w, kind);
        kind = after_byte(*b, kind);
    }
    next
}

// Which case was the first that differs.
fn first_text(out: &mut [u8], at: usize, first: usize) -> usize
    requires { at < 1048576 }
    ensures wrote { Wrote out.old at (first_text first) out.new result }
    ensures upper_bound { result ≤ at + 64 }
{
    let next = texts::numbered(out, at, b"first that differs: case ", first);
    texts::byte(out, next, b'\n')
}

// The same, if one does.
fn first_line(out: &mut [u8], at: usize, w: Walk) -> usize
    requires { at < 1048576 }
    ensures wrote { Wrote out.old at (first_line w.first) out.new result }
    ensures upper_bound { result ≤ at + 64 }
{
    match w.first {
        Some(first) => first_text(out, at, first),
        None => at,
    }
}

// A sum of all bytes of a list, by which a change of any one of them is seen.
fn checksum(list: &[u8]) -> usize
    ensures { result ≡ checksum 0 list.now }
{
    let mut sum = 0;
    for b in list {
        sum = (257 * sum + usize::from(*b)) % 4294967291;
    }
    sum
}

// Whether the list was read whole, and its checksum.
fn end_line(out: &mut [u8], at: usize, list: &[u8], w: Walk) -> usize
    requires { at < 1048576 }
    ensures { Wrote out.old at (end_line list.now w) out.new result }
{
    let sum = checksum(list);
    if w.at == list.len() {
        let next = texts::numbered(out, at, b"list read whole, checksum ", sum);
        return texts::byte(out, next, b'\n');
    }
    let next = texts::numbered(out, at, b"list ends early, checksum ", sum);
    texts::byte(out, next, b'\n')
}

// All that is printed of a walk through a list, in the front of a lent buffer, as far as there is room: how many bytes.
pub fn report(kinds: Kinds<'_>, list: &[u8], w: Walk, out: &mut [u8]) -> usize
    ensures out_after { out.new ≡ sets out.old 0 (reported kinds.entry.names.now list.now w) }
    ensures value { result ≡ min (length (reported kinds.entry.names.now list.now w)) (length out.old) }
    ensures prefix_len { IsPrefixLen result out.new }
{
    let next = kind_lines(out, kinds, w);
    let next = first_line(out, next, w);
    let next = end_line(out, next, list, w);
    next.min(out.len())
}
