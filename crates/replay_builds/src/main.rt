// Replays the stored answers on builds (docs/ORACLE.md, "builds.bin"): every table is built from its words and from its image, and answers, refusals
// and both buffers are compared with what the original answers.
#![tactic(auto)]

mod calls;

use vectors::report::Kinds;

fn main() {
    let kinds = Kinds {
        names: b"built:\nrefused 1:\nrefused 2:\nrefused 3:\nrefused 4:\nrefused 5:\nrefused 6:\nrefused 7:\nrefused 8:\nrefused 9:\nimage refused 13:\n",
        leading: 11,
    };
    vectors::replay::run(kinds, |turn| calls::alike(turn.case));
}
