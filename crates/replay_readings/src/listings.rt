// A text listed into lent buffers by `scan_list`: in one call where there is room for all, else in several, each of which goes on with the scan
// that the last one left.
use crate::scan::{ENTRY_BYTES, Scanning};
use refusals::Refusal;
use scans::list::{ENTRY, scan_list};
use scans::scan::Place;
use vectors::words::{UNLISTED, unlisted};

// ---- a call

// Word k of a buffer that lists these entries, and is unchanged behind them.
fn expected(entries: &[u8], k: usize) -> usize {
    if k < entries.len() / 4 {
        vectors::word(entries, 4 * k)
    } else {
        UNLISTED
    }
}

fn lists(out: &[usize], entries: &[u8]) -> bool {
    out.iter()
        .enumerate()
        .all(|(k, &word)| word == expected(entries, k))
}

impl<'a> Scanning<'a> {
    // Where the scan stands after these entries: at the end of the last, or where it stood.
    fn place_after(self, entries: &[u8]) -> Place {
        match entries.chunks(ENTRY_BYTES).last() {
            Some(entry) => Place::Reading(vectors::word(entry, 4)),
            None => self.scan.place,
        }
    }

    // The next call: as many entries as there is room for, or as are left. It has ended if there was room for more, and else reads on. None: it isn't so.
    fn listed(self, out: &mut [usize]) -> Option<Scanning<'a>> {
        let room = out.len() / ENTRY;
        let n = room.min(self.entries.len() / ENTRY_BYTES);
        let (now, later) = self.entries.split_at(ENTRY_BYTES * n);
        let place = if n < room {
            Place::Ended
        } else {
            self.place_after(now)
        };
        let l = scan_list(self.scan, self.graph, self.text, out);
        if l.answer != Ok(n) || l.scan.place != place || !lists(out, now) {
            return None;
        }
        Some(Scanning {
            graph: self.graph,
            text: self.text,
            scan: l.scan,
            entries: later,
        })
    }

    // The next call, into a buffer of `size` words.
    fn turn(self, size: usize) -> Option<Scanning<'a>> {
        if size < 16 {
            let mut out = unlisted::<16>();
            return self.listed(&mut out[..size]);
        }
        let mut out = unlisted::<16384>();
        if out.len() < size {
            return None;
        }
        self.listed(&mut out[..size])
    }

    // Whether a call is refused so, of `Scan::next` and of `scan_list`, and the scan and the buffer are as they were.
    pub(crate) fn refused(self, refusal: Refusal) -> bool {
        let mut out = unlisted::<16>();
        let l = scan_list(self.scan, self.graph, self.text, &mut out);
        l.answer == Err(refusal)
            && l.scan == self.scan
            && lists(&out, &[])
            && self.next_refused(refusal)
    }

    // ---- a text

    // So many calls.
    fn turns(self, size: usize, calls: usize) -> Option<Scanning<'a>> {
        let mut scanning = self;
        for _ in 0..calls {
            scanning = scanning.turn(size)?;
        }
        Some(scanning)
    }

    // All entries into buffers of `size` words, in as many calls as it takes; then 16.
    fn into_buffers(self, size: usize) -> bool {
        let room = size / ENTRY;
        if room == 0 {
            return false;
        }
        let calls = self.entries.len() / ENTRY_BYTES / room + 1;
        self.turns(size, calls).is_some_and(|end| end.scan.place == Place::Ended
            && end.refused(Refusal::ScanEnded))
    }

    // The text with number i: into a buffer with room for more entries than there are, into one with room for just these, into small ones, and into one
    // with no room, where none is listed, and the scan stays. The lengths change from text to text, and not all are threefold.
    pub(crate) fn lists_alike(self, i: usize) -> bool {
        let spare = i % 3;
        let exact = self.entries.len() / ENTRY_BYTES * ENTRY;
        self.turn(spare).is_some()
            && self.into_buffers(exact + 3 + spare)
            && (exact == 0 || self.into_buffers(exact))
            && self.into_buffers(3 + i % 10)
    }
}
