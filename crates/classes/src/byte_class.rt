// A class of bytes: its maximal ranges, its comparisons, their cost. A class comes in as 256 flags, one for each byte.
//
// What each call answers is defined in specs/ClassAnswers.antt, on the rules of specs/Classes.antt.

ghost use Rattle.std.specs.Prelude.{◌≡◌, ◌≤◌};
ghost use Rattle.classes.specs.Classes.{ranges, comparisons, holds, some_holds, ops_of, cost};
ghost use Rattle.classes.specs.ClassAnswers.{as_byte_class, as_comparisons, listed};

// The bytes first..=last. The definitions speak of it too.
#[derive(Clone, Copy, PartialEq, Eq)]
pub struct ByteRange {
    pub first: u8,
    pub last: u8,
}

// A class as its maximal ranges, ascending. Entries from `count` on are zeros. (An array and a count: the repository has no heap.)
#[derive(Clone, Copy)]
pub struct ByteClass {
    pub ranges: [ByteRange; 128],
    pub count: usize,
}

// It holds of the bytes first..=last but its exceptions, which are `holes` many and stand elsewhere.
#[derive(Clone, Copy, PartialEq, Eq)]
pub struct Comparison {
    pub first: u8,
    pub last: u8,
    pub holes: u8,
}

// The comparisons of a class, ascending. Their exceptions stand one after another in `except`, those of comparison 0 first. Entries that are not in use
// are zeros. (Arrays and a count: the repository has no heap.)
#[derive(Clone, Copy)]
pub struct Comparisons {
    pub list: [Comparison; 128],
    pub except: [u8; 128],
    pub count: usize,
}

// The maximal ranges of a class, in one pass over its flags.
pub fn ranges(class: &[bool; 256]) -> ByteClass
    ensures value { result ≡ as_byte_class (ranges class.now) }
    ensures room { result.count ≤ 128 }
{
    let mut ranges = [ByteRange { first: 0, last: 0 }; 128];
    let mut count = 0;
    // every byte from here up to b is in the class
    let mut start = 0;
    for (b, &inside) in class.iter().enumerate() {
        if !inside {
            if start < b {
                ranges[count] = ByteRange {
                    first: start as u8,
                    last: (b - 1) as u8,
                };
                count += 1;
            }
            start = b + 1;
        }
    }
    if start < 256 {
        ranges[count] = ByteRange {
            first: start as u8,
            last: 255,
        };
        count += 1;
    }
    ByteClass { ranges, count }
}

// The comparisons of a class. Neighbours that one byte parts are joined, and that byte becomes an exception.
pub fn impl_with_cmp(class: &[bool; 256]) -> Comparisons
    ensures value { result ≡ as_comparisons (comparisons class.now) }
    ensures room { result.count ≤ 128 }
{
    let held = ranges(class);
    let none = Comparison {
        first: 0,
        last: 0,
        holes: 0,
    };
    let mut list = [none; 128];
    let mut except = [0u8; 128];
    let mut count = 0;
    let mut gaps = 0;
    for &range in &held.ranges[..held.count] {
        if 0 < count && range.first as usize == list[count - 1].last as usize + 2 {
            // the byte between is an exception of the latest
            let latest = list[count - 1];
            except[gaps] = range.first - 1;
            gaps += 1;
            list[count - 1] = Comparison {
                first: latest.first,
                last: range.last,
                holes: latest.holes + 1,
            };
        } else {
            list[count] = Comparison {
                first: range.first,
                last: range.last,
                holes: 0,
            };
            count += 1;
        }
    }
    Comparisons {
        list,
        except,
        count,
    }
}

// The operations that one comparison takes: one for a single byte, else one for each end that is not 0 or 255; and one for each exception.
pub fn count_ops(comparison: Comparison) -> usize
    ensures value { result ≡ ops_of comparison.first comparison.last comparison.holes }
    ensures few { result ≤ 257 }
{
    let exceptions = comparison.holes as usize;
    if comparison.first == comparison.last {
        1 + exceptions
    } else {
        usize::from(comparison.first != 0) + usize::from(comparison.last != 255) + exceptions
    }
}

// The cost of a class: the operations of its comparisons.
pub fn cost(class: &[bool; 256]) -> usize
    ensures { result ≡ cost class.now }
{
    let cmp = impl_with_cmp(class);
    cmp.list[..cmp.count]
        .iter()
        .map(|&comparison| count_ops(comparison))
        .sum()
}

// Whether one comparison holds of the byte: it is inside the range and no exception.
pub fn holds(range: ByteRange, except: &[u8], byte: u8) -> bool
    ensures { result ≡ holds (record { range = range; except = except.now }) byte }
{
    range.first <= byte && byte <= range.last && !except.contains(&byte)
}

// Whether one of the listed comparisons holds of the byte. The slices are the arrays of `Comparisons`, as far as they are in use, or others. A `for`,
// since the exceptions of the earlier comparisons are passed by on the way.
pub fn some_holds(list: &[Comparison], except: &[u8], byte: u8) -> bool
    ensures { result ≡ some_holds (listed list.now except.now) byte }
{
    let mut left = except;
    for comparison in list {
        let holes = left.len().min(comparison.holes as usize);
        let range = ByteRange {
            first: comparison.first,
            last: comparison.last,
        };
        if holds(range, &left[..holes], byte) {
            return true;
        }
        left = &left[holes..];
    }
    false
}
