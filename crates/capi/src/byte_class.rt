// A class: its cost, its maximal ranges, its comparisons. Ranges and comparisons are handed out in one block, arrays of 128 bytes one after another.
ghost use Rattle.std.specs.Prelude.{◌≡◌, [], ◌∷◌};
ghost use Rattle.classes.specs.Classes.{cost};
ghost use Rattle.capi.specs.Lent.{flags_of, put, put_report};
ghost use Rattle.capi.specs.Parts.{ranges_of, range_bytes, cmp_of, cmp_bytes};

// The cost of a class.
#[unsafe(no_mangle)]
pub extern "C" fn balthwyr_cost(flags: &[u8], ops: &mut usize) -> u8
    ensures { (result ≡ 0) × (ops.new ≡ cost (flags_of flags.now)) }
{
    let class = crate::lent::flags_of(flags);
    *ops = classes::byte_class::cost(&class);
    0
}

// `ranges`, as bytes: all first ones, all last ones. Behind the entries in use they stay zeros.
#[unsafe(no_mangle)]
pub extern "C" fn balthwyr_ranges(flags: &[u8], parts: &mut [u8], count: &mut usize) -> u8
    ensures flags_value { put_report (put (range_bytes (ranges_of (flags_of flags.now))) parts.old) (ranges_of (flags_of flags.now)).count ≡ record { refusal = result; values = count.new ∷ [] } }
    ensures parts_after { parts.new ≡ (put (range_bytes (ranges_of (flags_of flags.now))) parts.old).block }
{
    let class = classes::byte_class::ranges(&crate::lent::flags_of(flags));
    let mut bytes = [0; 256];
    for (i, range) in class.ranges[..class.count].iter().enumerate() {
        bytes[i] = range.first;
        bytes[128 + i] = range.last;
    }
    crate::lent::put_counted(&bytes, class.count, parts, count)
}

// `impl_with_cmp`, as bytes: all first ones, all last ones, how many exceptions each has, the exceptions. Behind the entries in use they stay zeros.
#[unsafe(no_mangle)]
pub extern "C" fn balthwyr_impl_with_cmp(flags: &[u8], parts: &mut [u8], count: &mut usize) -> u8
    ensures flags_value { put_report (put (cmp_bytes (cmp_of (flags_of flags.now))) parts.old) (cmp_of (flags_of flags.now)).count ≡ record { refusal = result; values = count.new ∷ [] } }
    ensures parts_after { parts.new ≡ (put (cmp_bytes (cmp_of (flags_of flags.now))) parts.old).block }
{
    let cmp = classes::byte_class::impl_with_cmp(&crate::lent::flags_of(flags));
    let mut bytes = [0; 512];
    for (i, comparison) in cmp.list[..cmp.count].iter().enumerate() {
        bytes[i] = comparison.first;
        bytes[128 + i] = comparison.last;
        bytes[256 + i] = comparison.holes;
    }
    bytes[384..].copy_from_slice(&cmp.except);
    crate::lent::put_counted(&bytes, cmp.count, parts, count)
}
