// An edge of a state whose edges are tested one by one, as it is kept for a run.
use classes::byte_class::Comparison;

// The most comparisons of an edge that is tested by them, and the most exceptions of these.
pub(crate) const LIST: usize = 3;

pub(crate) const EXCEPT: usize = 2;

// The state that it leads to, and its comparisons, if it is tested by them: 14 bytes, of which a run keeps two for each state on the
// stack. Arrays and a count, since nothing is allocated; target 0 where there is no edge, which an Option would make two bytes more of.
#[derive(Clone, Copy)]
pub struct Edge {
    pub(crate) target: u16,
    pub(crate) count: u8,
    pub(crate) list: [Comparison; LIST],
    pub(crate) except: [u8; EXCEPT],
}

// No edge: what stands where none is prepared.
pub const NO_EDGE: Edge = Edge {
    target: 0,
    count: 0,
    list: [Comparison {
        first: 0,
        last: 0,
        holes: 0,
    }; LIST],
    except: [0; EXCEPT],
};
