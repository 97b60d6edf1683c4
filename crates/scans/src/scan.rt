// The scan: it is either reading at an offset or ended.
ghost use Rattle.std.specs.Prelude.{◌≡◌, ◌+◌, ◌<◌, ◌≤◌, length, drop, IfSome, Err};
ghost use Rattle.graph_rules.specs.Graph.{graph_from};
ghost use Rattle.graph_rules.specs.Read.{read_graph};
ghost use Rattle.scans.specs.Scan.{fresh, end_of, gap_length, entry_of, scan_of, next};

use crate::reader::Reader;
use graph_rules::Found;
use refusals::Refusal;
use words::graph::Graph;

// Where a scan is. (No Option: reading or ended, two words of the project, docs/DECISIONS.md, 36.)
#[derive(Clone, Copy, PartialEq, Eq)]
pub enum Place {
    Reading(usize),
    Ended,
}

#[derive(Clone, Copy, PartialEq, Eq)]
pub struct Scan {
    pub place: Place,
}

// A piece of a text: a token, which a leaf has matched, or a gap.
#[derive(Clone, Copy, PartialEq, Eq)]
pub enum Piece {
    Token {
        leaf: usize,
        start: usize,
        end: usize,
    },
    Gap {
        start: usize,
        end: usize,
    },
}

// An answer, none where the scan ends, and the scan after it.
#[derive(Clone, Copy)]
pub struct Scanned {
    pub answer: Result<Option<Piece>, Refusal>,
    pub scan: Scan,
}

impl Piece {
    pub fn end(self) -> usize
        ensures { result ≡ end_of self }
    {
        match self {
            Piece::Token { end, .. } => end,
            Piece::Gap { end, .. } => end,
        }
    }
}

// Where the gap at an offset below the length ends. Gaps are few: out of the way, they do not make the end of a token wait for a choice.
#[cold]
#[inline(never)]
fn gap_end(text: &[u8], at: usize) -> usize
    requires { at < length text.now }
    ensures { result ≡ at + gap_length text.now at }
{
    at + 1
}

// The token or gap at an offset below the length, by a reading from there on, which ends in the text.
fn entry_by(text: &[u8], at: usize, reading: Option<Found>) -> Piece
    requires at_in_bounds { at < length text.now }
    requires end_in_bounds { IfSome reading (λ f. at + f.end ≤ length text.now) }
    ensures { result ≡ entry_of text.now at reading }
{
    match reading {
        Some(found) if found.end != 0 => Piece::Token {
            leaf: found.leaf,
            start: at,
            end: at + found.end,
        },
        _ => Piece::Gap {
            start: at,
            end: gap_end(text, at),
        },
    }
}

// The token or gap at an offset below the length.
pub(crate) fn entry<R: Reader>(reader: &R, text: &[u8], at: usize) -> Piece
    requires { at < length text.now }
    ensures { result ≡ entry_of text.now at (read_graph (graph_from (R.words reader.now)) (drop at text.now)) }
{
    entry_by(text, at, reader.read(&text[at..]).reading())
}

impl Scan {
    // A scan that has read nothing.
    pub fn new() -> Scan
        ensures { result ≡ fresh }
    {
        Scan {
            place: Place::Reading(0),
        }
    }

    // The next answer by well-formed graph words.
    fn step(self, graph: Graph<'_>, text: &[u8]) -> Scanned
        ensures { result ≡ scan_of (graph_from graph.entry.words.now) text.now self }
    {
        match self.place {
            Place::Reading(at) if text.len() < at => self.refused(Refusal::PlanOrOffset),
            Place::Reading(at) if at == text.len() => Scanned {
                answer: Ok(None),
                scan: Scan {
                    place: Place::Ended,
                },
            },
            Place::Reading(at) => {
                let piece = entry(&graph, text, at);
                Scanned {
                    answer: Ok(Some(piece)),
                    scan: Scan {
                        place: Place::Reading(piece.end()),
                    },
                }
            }
            Place::Ended => self.refused(Refusal::ScanEnded),
        }
    }

    // A refusal leaves the scan as it is.
    fn refused(self, refusal: Refusal) -> Scanned
        ensures { result ≡ record { answer = Err refusal; scan = self } }
    {
        Scanned {
            answer: Err(refusal),
            scan: self,
        }
    }

    // The next token or gap of the text by the graph; or none, and the scan has ended; or 12, 14 or 16, and the scan unchanged.
    pub fn next(self, graph: &[u16], text: &[u8]) -> Scanned
        ensures { result ≡ next graph.now text.now self }
    {
        match Graph::new(graph) {
            Ok(graph) => self.step(graph, text),
            Err(refusal) => self.refused(refusal),
        }
    }
}
