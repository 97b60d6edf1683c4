// Table words: 0 n, the number of states; 1 the start; 2 m, the number of leaves; 3 r, the number of match records. Then three words a leaf: priority
// low half, high half, 1 if it can match empty text. Then a row a state: the targets of the bytes 0 to 255, the end target, the head of its match
// chain. Then two words a match record, numbered from 1: leaf, next.
ghost use Rattle.std.specs.Prelude.{◌≡◌, ◌<◌, ◌≤◌, length, get_or};
ghost use Rattle.graph_rules.specs.Layout.{leaf_place, row_place, match_place, table_length};

// The words of a row.
pub const ROW: usize = 258;
// The place of the chain's head in a row, behind the targets.
pub const HEAD: usize = 257;
// The most leaves.
pub const LEAVES: usize = 255;
// The most match records.
pub const MATCHES: usize = 4095;

// The bounds below are of plain numbers, for the sums of a place: legal meets them once for all callers, and a struct of three counts would say no more.

// The place of word c of leaf l: priority low half, high half, empty flag.
pub fn leaf_place(l: usize, c: usize) -> usize
    requires l_bound { l < 65536 }
    requires c_bound { c < 65536 }
    ensures { result ≡ leaf_place l c }
{
    4 + 3 * l + c
}

// The place of word c of state s: a step's target, or the head of the chain.
pub fn row_place(m: usize, s: usize, c: usize) -> usize
    requires m_bound { m < 65536 }
    requires s_bound { s < 65536 }
    requires c_bound { c < 65536 }
    ensures { result ≡ row_place m s c }
{
    4 + 3 * m + ROW * s + c
}

// The place of word c, 0 or 1, of match record i, from 1.
pub fn match_place(m: usize, n: usize, i: usize, c: usize) -> usize
    requires m_bound { m < 65536 }
    requires n_bound { n < 65536 }
    requires i_bound { i < 65536 }
    requires i_nonzero { 0 < i }
    requires c_bound { c < 65536 }
    ensures { result ≡ match_place m n i c }
{
    4 + 3 * m + ROW * n + 2 * (i - 1) + c
}

// What the next three share is `crate::word`; each has the place as its own.

// Word c of leaf l.
pub fn leaf_word(table: &[u16], l: usize, c: usize) -> usize
    requires l_bound { l < 65536 }
    requires c_bound { c < 65536 }
    requires c_in_bounds { leaf_place l c < length table.now }
    ensures { (result ≡ get_or table.now (leaf_place l c) 0) × (result < 65536) }
{
    crate::word(table, leaf_place(l, c))
}

// Word c of state s.
pub fn row_word(table: &[u16], m: usize, s: usize, c: usize) -> usize
    requires m_bound { m < 65536 }
    requires s_bound { s < 65536 }
    requires c_bound { c < 65536 }
    requires c_in_bounds { row_place m s c < length table.now }
    ensures { (result ≡ get_or table.now (row_place m s c) 0) × (result < 65536) }
{
    crate::word(table, row_place(m, s, c))
}

// Word c of match record i, from 1.
pub fn match_word(table: &[u16], m: usize, n: usize, i: usize, c: usize) -> usize
    requires m_bound { m < 65536 }
    requires n_bound { n < 65536 }
    requires i_bound { i < 65536 }
    requires i_nonzero { 0 < i }
    requires c_bound { c < 65536 }
    requires c_in_bounds { match_place m n i c < length table.now }
    ensures { (result ≡ get_or table.now (match_place m n i c) 0) × (result < 65536) }
{
    crate::word(table, match_place(m, n, i, c))
}

// How many words a table has.
pub fn size(n: usize, m: usize, r: usize) -> usize
    requires n_bound { n < 65536 }
    requires m_bound { m < 65536 }
    requires r_bound { r < 65536 }
    ensures { result ≡ table_length n m r }
{
    4 + 3 * m + ROW * n + 2 * r
}
