// The widths that lead bytes announce (Unicode, Table 3-7): one entry a byte; 0: no sequence begins with it.
// (A table: a rule of the project, decision 36.)
ghost use Rattle.std.specs.Prelude.{◌≡◌, ◌<◌, MatchOption};
ghost use Rattle.lists.specs.Lists.{tab};
ghost use Rattle.utf8.specs.Utf8.{width_of};

const WIDTHS: [u8; 256] = [
    // 00 to 7F: one byte
    1, 1, 1, 1, 1, 1, 1, 1, 1, 1, 1, 1, 1, 1, 1, 1, 1, 1, 1, 1, 1, 1, 1, 1, 1, 1, 1, 1, 1, 1, 1, 1,
    1, 1, 1, 1, 1, 1, 1, 1, 1, 1, 1, 1, 1, 1, 1, 1, 1, 1, 1, 1, 1, 1, 1, 1, 1, 1, 1, 1, 1, 1, 1, 1,
    1, 1, 1, 1, 1, 1, 1, 1, 1, 1, 1, 1, 1, 1, 1, 1, 1, 1, 1, 1, 1, 1, 1, 1, 1, 1, 1, 1, 1, 1, 1, 1,
    1, 1, 1, 1, 1, 1, 1, 1, 1, 1, 1, 1, 1, 1, 1, 1, 1, 1, 1, 1, 1, 1, 1, 1, 1, 1, 1, 1, 1, 1, 1, 1,
    // 80 to C1: no lead
    0, 0, 0, 0, 0, 0, 0, 0, 0, 0, 0, 0, 0, 0, 0, 0, 0, 0, 0, 0, 0, 0, 0, 0, 0, 0, 0, 0, 0, 0, 0, 0,
    0, 0, 0, 0, 0, 0, 0, 0, 0, 0, 0, 0, 0, 0, 0, 0, 0, 0, 0, 0, 0, 0, 0, 0, 0, 0, 0, 0, 0, 0, 0, 0,
    0, 0,
    // C2 to DF
    2, 2, 2, 2, 2, 2, 2, 2, 2, 2, 2, 2, 2, 2, 2, 2, 2, 2, 2, 2, 2, 2, 2, 2, 2, 2, 2, 2, 2, 2,
    // E0 to EF
    3, 3, 3, 3, 3, 3, 3, 3, 3, 3, 3, 3, 3, 3, 3, 3,
    // F0 to F4
    4, 4, 4, 4, 4,
    // F5 to FF: no lead
    0, 0, 0, 0, 0, 0, 0, 0, 0, 0, 0,
];

// The table of widths, to be lent: a constant that is read in place is laid out anew at each reading.
#[derive(Clone, Copy)]
pub struct Widths {
    table: [u8; 256],
    ghost right: { table ≡ tab 0 256 width_of },
}

impl Widths {
    pub fn new() -> Self {
        Widths { table: WIDTHS }
    }

    // The width that a lead byte announces.
    pub fn of(&self, lead: u8) -> Option<u8>
        ensures { MatchOption result (width_of lead ≡ 0) (λ width. (width ≡ width_of lead) × (0 < width)) }
    {
        match self.table[lead as usize] {
            0 => None,
            width => Some(width),
        }
    }
}
