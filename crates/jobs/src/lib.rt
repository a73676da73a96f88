// A job's way through a box: 1 MULTICAST, 2 ACCEPT, 3 ACCEPT_ACK, 4 DELIVER, post and retry.
// One module a kind or an order; each definition stands under the same name in specs/ of boxes.
#![tactic(auto)]

mod accept;
mod accept_ack;
mod deliver;
mod multicast;
mod posts;
mod retry;

pub use accept::{decide_accept, do_accept};
pub use accept_ack::{decide_accept_ack, do_accept_ack};
pub use deliver::{decide_deliver, do_deliver};
pub use multicast::{decide_multicast, do_multicast};
pub use posts::do_post;
pub use retry::{decide_retry, do_retry};
