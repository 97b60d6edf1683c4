// A scan, call by call: each piece, then ended, then 16. The pieces are entries of a list: start, end and leaf, 65,535 for a gap, a word each.
use refusals::Refusal;
use scans::scan::{Piece, Place, Scan, Scanned};

// The bytes of an entry.
pub(crate) const ENTRY_BYTES: usize = 12;

// A scan that begins at an offset.
pub(crate) fn begun(offset: usize) -> Scan {
    if offset == 0 {
        return Scan::new();
    }
    Scan {
        place: Place::Reading(offset),
    }
}

// The piece that an entry is.
fn piece(entry: &[u8]) -> Piece {
    let start = vectors::word(entry, 0);
    let end = vectors::word(entry, 4);
    match vectors::word(entry, 8) {
        65535 => Piece::Gap { start, end },
        leaf => Piece::Token { leaf, start, end },
    }
}

// Whether a call answers this, and the scan then stands there.
fn answers(scanned: Scanned, answer: Result<Option<Piece>, Refusal>, place: Place) -> bool {
    scanned.answer == answer && scanned.scan.place == place
}

// A scan of a text by a graph, between two calls, and the entries of the pieces that are to come.
#[derive(Clone, Copy)]
pub(crate) struct Scanning<'a> {
    pub graph: &'a [u16],
    pub text: &'a [u8],
    pub scan: Scan,
    pub entries: &'a [u8],
}

impl Scanning<'_> {
    fn next(self) -> Scanned {
        self.scan.next(self.graph, self.text)
    }

    // Whether the next call is refused so, and the scan is as it was.
    pub(crate) fn next_refused(self, refusal: Refusal) -> bool {
        answers(self.next(), Err(refusal), self.scan.place)
    }

    // All pieces, and then ended. (A `for`: each piece goes on from the scan that the last one left.)
    pub(crate) fn pieces_alike(self) -> bool {
        let mut scanning = self;
        for entry in self.entries.chunks(ENTRY_BYTES) {
            let piece = piece(entry);
            let scanned = scanning.next();
            if !answers(scanned, Ok(Some(piece)), Place::Reading(piece.end())) {
                return false;
            }
            scanning.scan = scanned.scan;
        }
        let last = scanning.next();
        scanning.scan = last.scan;
        self.entries.len() % ENTRY_BYTES == 0
            && answers(last, Ok(None), Place::Ended)
            && scanning.next_refused(Refusal::ScanEnded)
    }
}
