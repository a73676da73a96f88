// What a step sends: records drafted, written into the tray, and ready jobs handed out.
// The definitions stand in specs/ of boxes, what the tray then holds in specs/Sends.antt.
#![tactic(auto)]

mod draft;
mod handing;
mod ready;
mod sends;

pub use draft::{
    accept_record, ack_record, multicast_record, new_state_record, newstate_ack_record,
    stand_record, vote_record,
};
pub use handing::hand_out;
pub use ready::is_open;
pub use sends::{done_sending, send};

// how many bytes and records were written
#[derive(Clone, Copy)]
pub struct Sent {
    pub used: usize,
    pub records: u16,
}
