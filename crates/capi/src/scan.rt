// The scan, which is held by the caller as one number.
ghost use Rattle.std.specs.Prelude.{◌≡◌, [], ◌∷◌};
ghost use Rattle.scans.specs.Scan.{piece_values, scan_report, next};
ghost use Rattle.scans.specs.List.{list_report, scan_list};
ghost use Rattle.capi.specs.Plans.{list_in};
ghost use Rattle.capi.specs.Scans.{scan_of, number_of};

use crate::told::{Numbers, Report, told};
use scans::scan::{Piece, Place, Scan};

// The number of a scan that has ended (C holds a scan as one `size_t`).
const ENDED: usize = usize::MAX;

// The scan of a number, and below the number of a scan. (No `From`: both types are of other crates.)
fn scan_of(number: usize) -> Scan
    ensures { result ≡ scan_of number }
{
    Scan {
        place: if number == ENDED {
            Place::Ended
        } else {
            Place::Reading(number)
        },
    }
}

// The number of a scan.
fn number_of(scan: Scan) -> usize
    ensures { result ≡ number_of scan }
{
    match scan.place {
        Place::Reading(at) => at,
        Place::Ended => ENDED,
    }
}

impl Numbers<4> for Option<Piece> {
    ghost numbers = { piece_values };

    fn numbers(self) -> [usize; 4] {
        match self {
            Some(Piece::Token { leaf, start, end }) => [1, leaf, start, end],
            Some(Piece::Gap { start, end }) => [2, 0, start, end],
            None => [0; 4],
        }
    }
}

// `Scan::next`: the next token or gap, or that the scan has ended.
#[unsafe(no_mangle)]
pub extern "C" fn balthwyr_scan_next(
    graph: &[u16],
    text: &[u8],
    scan: &mut usize,
    kind: &mut usize,
    leaf: &mut usize,
    start: &mut usize,
    end: &mut usize,
) -> u8
    ensures scan_value { scan_report (next graph.now text.now (scan_of scan.old)).answer ≡ record { refusal = result; values = kind.new ∷ leaf.new ∷ start.new ∷ end.new ∷ [] } }
    ensures scan_after { scan.new ≡ number_of (next graph.now text.now (scan_of scan.old)).scan }
{
    let scanned = scan_of(*scan).next(graph, text);
    *scan = number_of(scanned.scan);
    let told: Report<4> = told(scanned.answer);
    [*kind, *leaf, *start, *end] = told.values;
    told.refusal
}

// `scan_list`: as many entries as there is room for, three words an entry.
#[unsafe(no_mangle)]
pub extern "C" fn balthwyr_scan_list(
    graph: &[u16],
    text: &[u8],
    scan: &mut usize,
    out: &mut [usize],
    entries: &mut usize,
) -> u8
    ensures out_value { list_report (scan_list graph.now text.now (scan_of scan.old) out.old).listed.answer ≡ record { refusal = result; values = entries.new ∷ [] } }
    ensures scan_after { scan.new ≡ number_of (scan_list graph.now text.now (scan_of scan.old) out.old).listed.scan }
    ensures out_after { out.new ≡ (scan_list graph.now text.now (scan_of scan.old) out.old).buffer }
{
    let listed = scans::list::scan_list(scan_of(*scan), graph, text, out);
    *scan = number_of(listed.scan);
    let told: Report<1> = told(listed.answer);
    [*entries] = told.values;
    told.refusal
}

// `scan_planned`: what `scan_list` answers, by a plan and a store.
#[unsafe(no_mangle)]
pub extern "C" fn balthwyr_scan_planned(
    graph: &[u16],
    plan: &[u16],
    tables: &[u8],
    count: usize,
    text: &[u8],
    scan: &mut usize,
    out: &mut [usize],
    entries: &mut usize,
) -> u8
    ensures out_value { list_report (list_in graph.now plan.now tables.now count text.now (scan_of scan.old) out.old).listed.answer ≡ record { refusal = result; values = entries.new ∷ [] } }
    ensures scan_after { scan.new ≡ number_of (list_in graph.now plan.now tables.now count text.now (scan_of scan.old) out.old).listed.scan }
    ensures out_after { out.new ≡ (list_in graph.now plan.now tables.now count text.now (scan_of scan.old) out.old).buffer }
{
    let held = crate::masks::store_in(tables, count);
    let listed = plans::planned::scan_planned(scan_of(*scan), graph, plan, held, text, out);
    *scan = number_of(listed.scan);
    let told: Report<1> = told(listed.answer);
    [*entries] = told.values;
    told.refusal
}
