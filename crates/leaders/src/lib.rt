// How a district changes its leader: stand, 5 NEWLEADER, 6 NEWLEADER_ACK, 7 NEW_STATE, 8 NEWSTATE_ACK.
// One module a kind; each definition stands under the same name in specs/ of boxes.
#![tactic(auto)]

mod merge;
mod new_state;
mod newleader;
mod newleader_ack;
mod newstate_ack;
mod stand;

pub use new_state::{decide_new_state, do_new_state};
pub use newleader::{decide_newleader, do_newleader};
pub use newleader_ack::{decide_newleader_ack, do_newleader_ack};
pub use newstate_ack::{decide_newstate_ack, do_newstate_ack};
pub use stand::{decide_stand, do_stand};
