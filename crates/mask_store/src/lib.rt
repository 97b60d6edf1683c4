// The mask store (docs/RULES.md, "Masks"): up to 64 classes as bits of eight tables of 256 bytes, each class once, under the number with which it was
// first met. Mask i is bit i mod 8 of table i / 8. Nothing here knows of a graph, nor what a class costs.
//
// A store comes from outside and may be anything: the public calls `add_by_value`, `add_test_to_lut`, `add_by_loan` and `render_luts` answer 15 where
// it is none (docs/REFUSALS.md). What each answers is defined in specs/Masks.antt.
#![tactic(auto)]

ghost use Rattle.std.specs.Prelude.{◌≡◌, true, false, ◌%◌, ◌^◌, ◌<◌, ◌≤◌, MatchResult};
ghost use Rattle.refusals.specs.declared.Refusal.TheVariants.{Store};
ghost use Rattle.mask_store.specs.Layout.{most_masks};
ghost use Rattle.mask_store.specs.Masks.{allowed, held, number_of, add, used_in, render};

use refusals::Refusal;

pub mod tables;

// The number of tables.
pub const TABLES: usize = 8;
// The entries of a table, one for each byte.
pub const TABLE_SIZE: usize = 256;
// The masks of a table, a bit of each entry.
pub const TABLE_MASKS: usize = 8;
// The entries of all tables.
pub const SIZE: usize = TABLES * TABLE_SIZE;
// The most masks.
pub const MASKS: usize = TABLES * TABLE_MASKS;

// The tables stand one after another: entry 256 t + b is that of byte b in table t. Bits of masks from `count` on mean nothing. An array and a
// count, since nothing is allocated, and so C holds it.
#[derive(Clone, Copy, PartialEq, Eq)]
pub struct MaskStore {
    pub tables: [u8; SIZE],
    pub count: usize,
}

// The answer to a class that was to be added, its number or 15, and the store after it.
#[derive(Clone, Copy)]
pub struct Added {
    pub answer: Result<usize, Refusal>,
    pub store: MaskStore,
}

// ---- looking a class up

// The masks of a store, at most 64, to be looked up.
#[derive(Clone, Copy)]
pub struct Masks<'a> {
    pub store: &'a MaskStore,
    pub ghost few: { store.now.count ≤ most_masks },
}

impl Masks<'_> {
    // The number that the store has for a class, or would give it.
    pub fn number_of(self, class: &[bool; 256]) -> usize
        ensures value { result ≡ number_of (held self.entry.store.now) class.now }
        ensures few { result ≤ most_masks }
    {
        tables::number_from(&self.store.tables, 0, self.store.count, class)
    }
}

// ---- refusal 15, and adding a class

// A store that is allowed, as one is that was and has grown: whoever holds one adds to it without a check.
#[derive(Clone, Copy)]
pub struct Allowed {
    pub store: MaskStore,
    pub ghost allowed: { allowed store ≡ true },
}

impl Allowed {
    // The store, if it is allowed; else 15.
    pub fn new(store: MaskStore) -> Result<Allowed, Refusal>
        ensures { MatchResult result (λ held. (held.store ≡ store) × (allowed store ≡ true)) (λ refusal. (refusal ≡ Store) × (allowed store ≡ false)) }
    {
        if tables::allowed(&store.tables, store.count) {
            Ok(Allowed { store })
        } else {
            Err(Refusal::Store)
        }
    }

    // The class added: its number; or 15, and the store unchanged.
    pub fn add(&mut self, class: [bool; 256]) -> Result<usize, Refusal>
        ensures answer { result ≡ (add self.old.store class).answer }
        ensures after { self.new.store ≡ (add self.old.store class).store }
    {
        let number = Masks { store: &self.store }.number_of(&class);
        let count = self.store.count;
        if number < count {
            Ok(number)
        } else if count < MASKS {
            tables::write_mask(&mut self.store.tables, count, &class);
            self.store.count = count + 1;
            Ok(count)
        } else {
            Err(Refusal::Store)
        }
    }
}

// The class added to any store, or 15: by value, on a store that is lent, and by a loan, three forms that the project keeps (docs/DECISIONS.md, 9 and 36).
pub fn add_by_value(store: MaskStore, class: [bool; 256]) -> Added
    ensures { result ≡ add store class }
{
    match Allowed::new(store) {
        Ok(allowed) => {
            let mut held = allowed;
            let answer = held.add(class);
            Added {
                answer,
                store: held.store,
            }
        }
        Err(refusal) => Added {
            answer: Err(refusal),
            store,
        },
    }
}

// The same on a store that is lent, and grows in the call.
pub fn add_test_to_lut(store: &mut MaskStore, class: [bool; 256]) -> Result<usize, Refusal>
    ensures answer { result ≡ (add store.old class).answer }
    ensures after { store.new ≡ (add store.old class).store }
{
    let added = add_by_value(*store, class);
    *store = added.store;
    added.answer
}

// The same on a store of one's own, which is lent for the call: what a program calls.
pub fn add_by_loan(store: MaskStore, class: [bool; 256]) -> Added
    ensures { result ≡ add store class }
{
    let mut lent = store;
    let answer = add_test_to_lut(&mut lent, class);
    Added {
        answer,
        store: lent,
    }
}

// ---- the tables

// The n lowest bits of the word.
fn low_bits(word: u8, n: usize) -> u8
    requires { n ≤ TABLE_MASKS }
    ensures { result ≡ word % 2 ^ n }
{
    if n < TABLE_MASKS {
        word & ((1u8 << n) - 1)
    } else {
        word
    }
}

// How many masks of table t are held.
fn used_in(count: usize, t: usize) -> usize
    requires { t < TABLES }
    ensures { result ≡ used_in count t }
{
    count.saturating_sub(TABLE_MASKS * t).min(TABLE_MASKS)
}

// The eight tables, an array of arrays (docs/DECISIONS.md, 36), with 0 for each bit of a mask that is not held; or 15. By index, since an entry's place
// is counted in both: in its table, and among all entries.
pub fn render_luts(store: MaskStore) -> Result<[[u8; TABLE_SIZE]; TABLES], Refusal>
    ensures { result ≡ render store }
{
    let MaskStore { tables, count } = Allowed::new(store)?.store;
    let mut luts = [[0u8; TABLE_SIZE]; TABLES];
    for t in 0..TABLES {
        let used = used_in(count, t);
        for b in 0..TABLE_SIZE {
            luts[t][b] = low_bits(tables[TABLE_SIZE * t + b], used);
        }
    }
    Ok(luts)
}
