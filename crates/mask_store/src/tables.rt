// The masks that stand in eight tables of 256 bytes: one mask read, written or looked for, and whether all of them may be a store's. These are for
// the layers above, which know what they ask.
ghost use Rattle.std.specs.Prelude.{◌≡◌, ◌+◌, ◌-◌, ◌<◌, ◌≤◌};
ghost use Rattle.lists.specs.Lists.{tab};
ghost use Rattle.mask_store.specs.Masks.{mask_has, class_at, same_class, number_of, written, store_of, allowed};

use crate::{MASKS, SIZE, TABLE_MASKS, TABLE_SIZE};

// ---- one mask. It stays a number with its bound: a type would be made where a loop counts it or a plan's word names it, and taken apart in each
// function here.

// Whether mask i has the byte.
pub fn mask_has(tables: &[u8; SIZE], i: usize, byte: u8) -> bool
    requires { i < MASKS }
    ensures { result ≡ mask_has tables.now i byte }
{
    bits::test_bit(
        tables[TABLE_SIZE * (i / TABLE_MASKS) + byte as usize],
        i % TABLE_MASKS,
    )
}

// Mask i as a class.
pub(crate) fn class_at(tables: &[u8; SIZE], i: usize) -> [bool; 256]
    requires { i < MASKS }
    ensures { result ≡ class_at tables.now i }
{
    let mut class = [false; 256];
    for (b, flag) in class.iter_mut().enumerate() {
        *flag = mask_has(tables, i, b as u8);
    }
    class
}

// Whether mask i is this class. It is left at its first unequal byte.
fn is_class(tables: &[u8; SIZE], i: usize, class: &[bool; 256]) -> bool
    requires { i < MASKS }
    ensures { result ≡ same_class class.now (class_at tables.now i) }
{
    class
        .iter()
        .enumerate()
        .all(|(b, &flag)| mask_has(tables, i, b as u8) == flag)
}

// The class is written as mask i: 0 or 1 for each byte, and no other bit.
pub(crate) fn write_mask(tables: &mut [u8; SIZE], i: usize, class: &[bool; 256])
    requires { i < MASKS }
    ensures { tables.new ≡ written tables.old i class.now }
{
    let base = TABLE_SIZE * (i / TABLE_MASKS);
    let k = i % TABLE_MASKS;
    for (b, &flag) in class.iter().enumerate() {
        tables[base + b] = bits::with_bit(tables[base + b], k, flag);
    }
}

// ---- all masks. Tables and count come apart here: a store from outside may count anything, and a plan's words name masks of the tables alone.

// The first of masks `from`, .., `count` - 1 that is this class, or `count`: the number that a store of so many gives the class, also a new one.
// No option, since `Masks::number_of` would take it apart to this number.
pub fn number_from(tables: &[u8; SIZE], from: usize, count: usize, class: &[bool; 256]) -> usize
    requires { (from ≤ count) × (count ≤ MASKS) }
    ensures { result ≡ from + number_of (tab from (count - from) (class_at tables.now)) class.now }
{
    (from..count)
        .find(|&i| is_class(tables, i, class))
        .unwrap_or(count)
}

// Whether 15 allows the store: it counts at most 64 classes, and none stands twice. At most 2,016 pairs of masks are compared, each up to its first
// unequal byte.
pub fn allowed(tables: &[u8; SIZE], count: usize) -> bool
    ensures { result ≡ allowed (store_of tables.now count) }
{
    count <= MASKS
        && (0..count).all(|i| number_from(tables, i + 1, count, &class_at(tables, i)) == count)
}
