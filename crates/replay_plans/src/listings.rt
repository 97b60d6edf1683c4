// A text listed by the plan with `scan_planned`, beside `scan_list`, which walks the graph: both go into buffers that are filled with the same
// words, and must leave the same.
use crate::run::Planned;
use plans::list::{Listed, scan_list};
use plans::planned::scan_planned;
use plans::scan::{Place, Scan};
use refusals::Refusal;
use vectors::words::{same, unlisted};

fn at(place: Place) -> Scan {
    Scan { place }
}

impl Planned<'_> {
    fn scan(&self, scan: Scan, out: &mut [usize]) -> Listed {
        scan_planned(scan, self.graph, self.plan, self.store, self.text, out)
    }

    // Whether a call by the plan is refused so, and the scan and the buffer are as they were.
    fn refuses(&self, place: Place, refusal: Refusal) -> bool {
        let before = unlisted::<16>();
        let mut out = before;
        let l = self.scan(at(place), &mut out);
        l.answer == Err(refusal) && l.scan == at(place) && same(&out, &before)
    }

    fn past(&self) -> Place {
        Place::Reading(self.text.len() + 1)
    }

    // A refusal of the run is one of every scan, and goes before 16; a scan past the text gets 14, unless 12 goes before it.
    pub(crate) fn lists_refused(&self, refusal: Refusal) -> bool {
        let early = if refusal == Refusal::GraphForm {
            Refusal::GraphForm
        } else {
            Refusal::PlanOrOffset
        };
        self.refuses(Place::Reading(0), refusal)
            && self.refuses(self.past(), early)
            && self.refuses(Place::Ended, refusal)
    }

    // ---- a text that is listed

    // A call of each from the same scan: the scan after it, if both answered and left the same.
    fn call(&self, scan: Scan, walked: &mut [usize], planned: &mut [usize]) -> Option<Scan> {
        let w = scan_list(scan, self.graph, self.text, walked);
        let p = self.scan(scan, planned);
        if w.answer == p.answer && w.scan == p.scan && same(walked, planned) {
            Some(p.scan)
        } else {
            None
        }
    }

    // The next call of each, into buffers of `size` words, if the scan has not ended.
    fn turn(&self, scan: Scan, size: usize) -> Option<Scan> {
        if scan.place == Place::Ended {
            return Some(scan);
        }
        let mut walked = unlisted::<1024>();
        let mut planned = unlisted::<1024>();
        if walked.len() < size {
            return None;
        }
        self.call(scan, &mut walked[..size], &mut planned[..size])
    }

    // The scan after all of the text, in as many calls as it takes: each passes a byte or ends.
    fn listed(&self, size: usize) -> Option<Scan> {
        let mut scan = Scan::new();
        for _ in 0..=self.text.len() {
            scan = self.turn(scan, size)?;
        }
        Some(scan)
    }

    // All of the text into buffers. Then 16, and 14 past the text.
    fn into_buffers(&self, size: usize) -> bool {
        self.listed(size) == Some(at(Place::Ended))
            && self.refuses(Place::Ended, Refusal::ScanEnded)
            && self.refuses(self.past(), Refusal::PlanOrOffset)
    }

    // The text of run i: into buffers with room for more entries than there are, into small ones, and into ones with no room, where none is listed, and
    // the scan stays. The lengths change from run to run, and not all are threefold.
    pub(crate) fn lists_alike(&self, i: usize) -> bool {
        let spare = i % 3;
        self.text.len() <= 65535
            && self.turn(Scan::new(), spare) == Some(Scan::new())
            && self.into_buffers(3 * self.text.len() + 3 + spare)
            && self.into_buffers(3 + i % 10)
    }
}
