// The records of a pattern tree, and refusal 10: whether words and bytes are a tree.
ghost use Rattle.std.specs.Prelude.{◌≡◌, ◌-◌, ◌+◌, ◌<◌, ◌≤◌, ◌&&◌, ◌||◌, not, eqb, leb, get_or};
ghost use Rattle.lists.specs.Lists.{tab, all_l};
ghost use Rattle.trees.specs.Layout.{literal_kind};
ghost use Rattle.trees.specs.Tree.{count, record_of, numbers, children_fit, record_fits, named, tree_fits};
ghost use Rattle.trees.specs.Held.{Numbered, kind_number};

use crate::kind::{Children, Kind, Rule};

// The words of a record.
pub const WORDS: usize = 6;
// The most records.
pub const RECORDS: usize = 1024;
// Their numbers, from 1, and 0, which names none.
pub const NUMBERS: usize = RECORDS + 1;

// A record, as its words say it: unchecked, so its kind is a number still, and `child` and `next` are 0 for none; `nodes` makes Options of them.
#[derive(Clone, Copy)]
pub struct Record {
    pub kind: u32,
    // where a literal's bytes begin; a repetition's min
    pub a: u32,
    // how many bytes a literal has
    pub b: u32,
    pub flags: u32,
    // the first child
    pub child: usize,
    // the next in the chain of children
    pub next: usize,
}

// Record i. (A number with its bounds, here and below, since the words are judged here; a `Node` has them by type.)
pub fn record_at(tree: &[u32], i: usize) -> Record
    requires { (0 < i) × (i ≤ count tree.now) }
    ensures { result ≡ record_of tree.now i }
{
    let at = WORDS * (i - 1);
    Record {
        kind: tree[at],
        a: tree[at + 1],
        b: tree[at + 2],
        flags: tree[at + 3],
        child: tree[at + 4] as usize,
        next: tree[at + 5] as usize,
    }
}

// "Every other field or flag is 0."
fn fields_fit(r: Record, rule: Rule) -> bool
    ensures { result ≡ ((rule.a || eqb r.a 0) && (rule.b || eqb r.b 0) && leb r.flags rule.flags) }
{
    (rule.a || r.a == 0) && (rule.b || r.b == 0) && r.flags <= rule.flags
}

// "Repetition and capture have one child, kinds 0 to 3 none."
fn children_fit(tree: &[u32], children: Children, child: usize) -> bool
    requires { child ≤ count tree.now }
    ensures { result ≡ children_fit tree.now children child }
{
    match children {
        Children::No => child == 0,
        Children::One => child != 0 && record_at(tree, child).next == 0,
        Children::Any => true,
    }
}

// A literal does not pass its bytes.
fn literal_fits(kind: Kind, r: Record, size: usize) -> bool
    ensures { result ≡ (not (eqb (kind_number kind) literal_kind) || leb (r.a + r.b) size) }
{
    match kind {
        Kind::Literal => (r.a as usize) + (r.b as usize) <= size,
        _ => true,
    }
}

// The rules of one record.
fn record_fits(tree: &[u32], size: usize, i: usize) -> bool
    requires { (0 < i) × (i ≤ count tree.now) }
    ensures { result ≡ record_fits tree.now size i }
{
    let r = record_at(tree, i);
    let Ok(kind) = Kind::try_from(r.kind) else {
        return false;
    };
    let rule = kind.rule();
    if !fields_fit(r, rule) {
        return false;
    }
    if i <= r.child {
        return false;
    }
    if i <= r.next {
        return false;
    }
    children_fit(tree, rule.children, r.child) && literal_fits(kind, r, size)
}

// The rules of every record.
fn records_fit(tree: &[u32], size: usize) -> bool
    ensures { result ≡ all_l (record_fits tree.now size) (numbers tree.now) }
{
    let n = tree.len() / WORDS;
    (1..n + 1).all(|i| record_fits(tree, size, i))
}

// How often each number is named, as first child or as next. (An array: the repository has no heap.)
fn times_named(tree: &[u32]) -> [u16; NUMBERS]
    requires { Numbered tree.now }
    ensures { result ≡ tab 0 1025 (named tree.now) }
{
    let n = tree.len() / WORDS;
    let mut times = [0u16; NUMBERS];
    for i in 1..n + 1 {
        let r = record_at(tree, i);
        times[r.child] += 1;
        times[r.next] += 1;
    }
    times
}

// Every record below n is named once.
fn each_once(times: &[u16; NUMBERS], n: usize) -> bool
    requires { n ≤ 1024 }
    ensures { result ≡ all_l (λ i. eqb (get_or times.now i 0) 1) (tab 1 (n - 1) (λ i. i)) }
{
    (1..n).all(|i| times[i] == 1)
}

// Refusal 10 is not due: the words are a tree over these bytes.
pub fn fits(tree: &[u32], bytes: &[u8]) -> bool
    ensures { result ≡ tree_fits tree.now bytes.now }
{
    if tree.len() % WORDS != 0 {
        return false;
    }
    let n = tree.len() / WORDS;
    if n == 0 {
        return false;
    }
    if RECORDS < n {
        return false;
    }
    if !records_fit(tree, bytes.len()) {
        return false;
    }
    let last = record_at(tree, n);
    if last.next != 0 {
        return false;
    }
    // A root alone, as a literal is: no array of 2 KB is made for it.
    if n == 1 {
        return true;
    }
    let times = times_named(tree);
    each_once(&times, n)
}
