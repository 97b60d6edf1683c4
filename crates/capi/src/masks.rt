// The mask store, which is held by the caller as a block of 2,048 bytes, the eight tables one after another, and a count.
ghost use Rattle.std.specs.Prelude.{◌≡◌, cond, [], ◌∷◌};
ghost use Rattle.mask_store.specs.Masks.{add_report};
ghost use Rattle.capi.specs.Lent.{flags_of};
ghost use Rattle.capi.specs.Stores.{is_store, store_in, add_to, flat, render_to};

use crate::told::{Report, told};
use mask_store::{MASKS, MaskStore, SIZE, TABLE_SIZE, TABLES};

// A count that 15 refuses. A block that is no store is lent as one that is refused, and not refused here, since a call may have to answer 12 or 14 first.
const TOO_MANY: usize = MASKS + 1;

// The store of a block; one that 15 refuses, since it counts over 64, for a block of another length.
pub(crate) fn store_in(tables: &[u8], count: usize) -> MaskStore
    ensures { result ≡ store_in tables.now count }
{
    match tables.as_array::<SIZE>() {
        Some(tables) => MaskStore {
            tables: *tables,
            count,
        },
        None => MaskStore {
            tables: [0; SIZE],
            count: TOO_MANY,
        },
    }
}

// A store back in the block that it came from; a block that is no store is left, and so is its count.
pub(crate) fn keep(store: MaskStore, tables: &mut [u8], count: &mut usize)
    ensures tables_after { tables.new ≡ cond (is_store tables.old) store.tables tables.old }
    ensures count_after { count.new ≡ cond (is_store tables.old) store.count count.old }
{
    if tables.len() == SIZE {
        tables.copy_from_slice(&store.tables);
        *count = store.count;
    }
}

// `add_test_to_lut`: the number of the class, and the store that holds it.
#[unsafe(no_mangle)]
pub extern "C" fn balthwyr_add_test_to_lut(
    tables: &mut [u8],
    count: &mut usize,
    flags: &[u8],
    number: &mut usize,
) -> u8
    ensures flags_value { add_report (add_to tables.old count.old (flags_of flags.now)).answer ≡ record { refusal = result; values = number.new ∷ [] } }
    ensures tables_after { tables.new ≡ (add_to tables.old count.old (flags_of flags.now)).store.tables }
    ensures count_after { count.new ≡ (add_to tables.old count.old (flags_of flags.now)).store.count }
{
    let added = mask_store::add_by_loan(store_in(tables, *count), crate::lent::flags_of(flags));
    keep(added.store, tables, count);
    let told: Report<1> = told(added.answer);
    [*number] = told.values;
    told.refusal
}

// The eight tables one after another.
fn flat(luts: [[u8; TABLE_SIZE]; TABLES]) -> [u8; SIZE]
    ensures { result ≡ flat luts }
{
    let mut bytes = [0; SIZE];
    for (i, byte) in bytes.iter_mut().enumerate() {
        *byte = luts[i / TABLE_SIZE][i % TABLE_SIZE];
    }
    bytes
}

// `render_luts`: the eight tables one after another, in a lent block.
#[unsafe(no_mangle)]
pub extern "C" fn balthwyr_render_luts(tables: &[u8], count: usize, luts: &mut [u8]) -> u8
    ensures { (result ≡ (render_to tables.now count luts.old).refusal) × (luts.new ≡ (render_to tables.now count luts.old).block) }
{
    match mask_store::render_luts(store_in(tables, count)) {
        Ok(rendered) => crate::lent::put(&flat(rendered), luts),
        Err(refusal) => u8::from(refusal),
    }
}
