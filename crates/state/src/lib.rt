// The state of the search over lent lists, in the definition's parts: forest, labelling, pairing; their reads and stores, and the
// routines on labels.
#![tactic(auto)]

pub mod forest;
pub mod forget;
pub mod free;
pub mod fresh;
pub mod hand_out;
pub mod kids;
pub mod label;
pub mod labelling;
pub mod lists;
pub mod node_duals;
pub mod outer;
pub mod pairing;
pub mod places;
pub mod pools;
pub mod queue;
pub mod scan;
pub mod turning;
