// A class: its ranges, its comparisons, its cost; and the operations that a comparison counts.
use classes::byte_class::Comparison;
use vectors::cases::{number, part, shaped};
use vectors::parts::padded;

// Whether a field is those bytes in so many entries, and 0 in those behind them: the list has each field by itself.
fn column<T: Copy, F: Fn(T) -> u8>(entries: &[T; 128], count: usize, field: F, given: &[u8]) -> bool
    requires { F.IsAlwaysCallable field }
{
    let mut bytes = [0u8; 128];
    for (byte, &entry) in bytes.iter_mut().zip(entries) {
        *byte = field(entry);
    }
    count == given.len() && padded(&bytes, given, 0)
}

fn ranges_alike(class: &[bool; 256], case: &[u8]) -> bool {
    let held = classes::byte_class::ranges(class);
    column(&held.ranges, held.count, |range| range.first, part(case, 1))
        && column(&held.ranges, held.count, |range| range.last, part(case, 2))
}

fn comparisons_alike(class: &[bool; 256], case: &[u8]) -> bool {
    let cmp = classes::byte_class::impl_with_cmp(class);
    column(&cmp.list, cmp.count, |entry| entry.first, part(case, 3))
        && column(&cmp.list, cmp.count, |entry| entry.last, part(case, 4))
        && column(&cmp.list, cmp.count, |entry| entry.holes, part(case, 5))
        && padded(&cmp.except, part(case, 6), 0)
}

pub(crate) fn alike(case: &[u8]) -> bool {
    let class = vectors::flags(part(case, 0), 0);
    shaped(case, 1, 7)
        && part(case, 0).len() == 32
        && ranges_alike(&class, case)
        && comparisons_alike(&class, case)
        && classes::byte_class::cost(&class) == number(case, 0)
}

// A comparison's first and last byte and its number of exceptions; bytes, or it is none.
fn comparison(case: &[u8]) -> Option<Comparison> {
    Some(Comparison {
        first: u8::try_from(number(case, 0)).ok()?,
        last: u8::try_from(number(case, 1)).ok()?,
        holes: u8::try_from(number(case, 2)).ok()?,
    })
}

// A list says 0 of what is no comparison.
pub(crate) fn ops_alike(case: &[u8]) -> bool {
    shaped(case, 4, 0)
        && comparison(case).map_or(0, |c| classes::byte_class::count_ops(c)) == number(case, 3)
}
