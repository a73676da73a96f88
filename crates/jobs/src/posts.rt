// post: the office's records.
// The definition, posts, stands in specs/Post.antt of boxes.
ghost use Rattle.std.specs.Prelude.{true, ◌≡◌, ◌≤◌, length};
ghost use Rattle.house.specs.Plan.{plan_sound};
ghost use Rattle.records.specs.Bytes.{encode_all};
ghost use Rattle.boxes.specs.Post.{posts};
ghost use Rattle.sending.specs.Sends.{Written};

use house::Plan;
use sending::Sent;

// MULTICAST from the office to all boxes of the named districts: no box is asked
#[tactic(auto, unfolding(boxes::specs::Post::posts), using(sending::proofs::laws::Kinds::multicasts_sent, sending::proofs::laws::Sends::sends_as))]
pub fn do_post(plan: Plan, job: u8, tray: &mut [u8]) -> Sent
    requires { (plan_sound plan ≡ true) × (length (encode_all plan (posts plan job)) ≤ length tray.old) }
    ensures { Written plan (posts plan job) tray.old result tray.new }
{
    let office = house::office_of(plan);
    let r = sending::multicast_record(office, office, job);
    let meant = house::named_boxes(plan, job);
    sending::send(tray, plan, r, meant)
}
