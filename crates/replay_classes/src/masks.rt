// A mask store: classes that are added to it, one after another, all bits of its tables afterwards, and the tables that it renders.
use mask_store::{Added, MaskStore, TABLE_SIZE, TABLES};
use refusals::Refusal;
use vectors::answers::answer;
use vectors::cases::{number, part};
use vectors::parts::padded;

// An answer that the list has: a mask number, or 255 for 15.
fn told(said: u8) -> Result<usize, Refusal> {
    if said == 255 {
        Err(Refusal::Store)
    } else {
        Ok(said as usize)
    }
}

// The store to which classes of 32 bytes each were added, if they were given these numbers.
fn all_added<F: Fn(MaskStore, [bool; 256]) -> Added>(
    start: MaskStore,
    classes: &[u8],
    numbers: &[u8],
    add: F,
) -> Option<MaskStore>
    requires { F.IsAlwaysCallable add }
{
    let mut store = start;
    for (class, &said) in classes.chunks(32).zip(numbers) {
        let added = add(store, vectors::flags(class, 0));
        if added.answer != told(said) {
            return None;
        }
        store = added.store;
    }
    Some(store)
}

// What `render_luts` answers; and the tables, of which those that are not given are 0: where the call is refused all are.
fn rendered_alike(store: MaskStore, answer: Result<(), Refusal>, given: &[u8]) -> bool {
    let (told, luts) = match mask_store::render_luts(store) {
        Ok(luts) => (Ok(()), luts),
        Err(refusal) => (Err(refusal), [[0; TABLE_SIZE]; TABLES]),
    };
    told == answer
        && given.len() % TABLE_SIZE == 0
        && given.len() <= TABLES * TABLE_SIZE
        && luts.iter().enumerate().all(|(t, table)| padded(
            table,
            vectors::part(given, TABLE_SIZE * t, TABLE_SIZE),
            0,
        ))
}

// The store with masks that a part has, and so many of them in use. (`replay_plans` has it too: what both share, `vectors`, stands beside `mask_store`.)
fn store_of(case: &[u8], masks: &[u8], count: usize) -> MaskStore {
    MaskStore {
        tables: vectors::masks::tables((number(case, 0) % 256) as u8, masks),
        count,
    }
}

// A store, by the call that adds a class to it.
pub(crate) fn alike<F: Fn(MaskStore, [bool; 256]) -> Added>(case: &[u8], add: F) -> bool
    requires { F.IsAlwaysCallable add }
{
    let before = store_of(case, part(case, 0), number(case, 1));
    let classes = part(case, 1);
    let numbers = part(case, 2);
    let stored = store_of(case, part(case, 3), number(case, 2));
    let Some(rendered) = answer(number(case, 3), ()) else {
        return false;
    };
    vectors::cases::shaped(case, 4, 5)
        && classes.len() / 32 == numbers.len()
        && classes.len() % 32 == 0
        && all_added(before, classes, numbers, add).is_some_and(|after| {
            after == stored && rendered_alike(after, rendered, part(case, 4))
        })
}
