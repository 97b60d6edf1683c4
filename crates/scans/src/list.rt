// A whole text scanned into a lent buffer: three words an entry, start, end, and leaf or 65,535 for a gap.
ghost use Rattle.std.specs.Prelude.{◌≡◌, ◌*◌, ◌/◌, ◌<◌, ◌≤◌, length};
ghost use Rattle.std.proofs.lemmas.List.Edits.{sets};
ghost use Rattle.scans.specs.List.{entry_size, entry_words, list_from, scan_list};

use crate::reader::Reader;
use crate::scan::{Piece, Place, Scan, entry};
use refusals::Refusal;
use words::graph::Graph;

// The number of entries, or a refusal; and the scan after them.
#[derive(Clone, Copy)]
pub struct Listed {
    pub answer: Result<usize, Refusal>,
    pub scan: Scan,
}

// The words of an entry: start, end, and leaf or GAP.
pub const ENTRY: usize = 3;

// It stays a word, since the buffer is C's: flat, three words an entry.
const GAP: usize = 65535;

// A piece as an entry. (No From: three words are an entry only here.)
fn words_of(piece: Piece) -> [usize; ENTRY]
    ensures { result ≡ entry_words piece }
{
    match piece {
        Piece::Token { leaf, start, end } => [start, end, leaf],
        Piece::Gap { start, end } => [start, end, GAP],
    }
}

// Entry n, written into its place: three stores, since `copy_from_slice` takes a tenth more instructions in a scan of short tokens.
fn put_entry(out: &mut [usize], n: usize, piece: Piece)
    requires { n < length out.old / entry_size }
    ensures { out.new ≡ sets out.old (entry_size * n) (entry_words piece) }
{
    let i = ENTRY * n;
    let words = words_of(piece);
    out[i] = words[0];
    out[i + 1] = words[1];
    out[i + 2] = words[2];
}

// Entries from an offset on, as many as there is room for, by what reads as a graph does.
pub fn fill<R: Reader>(reader: &R, text: &[u8], from: usize, out: &mut [usize]) -> Listed
    requires { from ≤ length text.now }
    ensures listed { result ≡ (list_from (R.words reader.now) text.now from out.old).listed }
    ensures buffer { out.new ≡ (list_from (R.words reader.now) text.now from out.old).buffer }
{
    let room = out.len() / ENTRY;
    let mut at = from;
    for n in 0..room {
        if at == text.len() {
            return Listed {
                answer: Ok(n),
                scan: Scan {
                    place: Place::Ended,
                },
            };
        }
        let piece = entry(reader, text, at);
        put_entry(out, n, piece);
        at = piece.end();
    }
    Listed {
        answer: Ok(room),
        scan: Scan {
            place: Place::Reading(at),
        },
    }
}

// A text's tokens and gaps from a scan on, as many as there is room for; or 12, 14 or 16, and the scan and the buffer unchanged.
pub fn scan_list(scan: Scan, graph: &[u16], text: &[u8], out: &mut [usize]) -> Listed
    ensures listed { result ≡ (scan_list graph.now text.now scan out.old).listed }
    ensures buffer { out.new ≡ (scan_list graph.now text.now scan out.old).buffer }
{
    let refusal = match Graph::new(graph) {
        Err(refusal) => refusal,
        Ok(graph) => match scan.place {
            Place::Reading(at) if at <= text.len() => return fill(&graph, text, at, out),
            Place::Reading(_) => Refusal::PlanOrOffset,
            Place::Ended => Refusal::ScanEnded,
        },
    };
    Listed {
        answer: Err(refusal),
        scan,
    }
}
