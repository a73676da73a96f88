// What a record says, one variant a kind; who sends it and to whom stands beside it.
// The record that it is, says, stands in specs/Said.antt.
ghost use Rattle.std.specs.Prelude.{◌≡◌, ◌≤◌};
ghost use Rattle.records.specs.Format.{most_kind};
ghost use Rattle.records.specs.Rec.{meaning};
ghost use Rattle.steps.specs.Said.{says};

use house::Ballot;
use records::{Ballotpaper, Handout, NewState, Proposal, Record};

#[derive(Clone, Copy)]
pub enum Said {
    Multicast(u8),
    Accept(u8, Proposal),
    AcceptAck(u8, [Ballot; house::DISTRICTS]),
    Deliver(u8, Handout),
    Newleader(Ballot),
    NewleaderAck(Ballotpaper),
    NewState(NewState),
    NewstateAck(Ballot),
}

// what a record of one of the kinds says
#[tactic(auto, unfolding(records::specs::Rec::meaning, laws::specs::Choice::pick, crate::specs::Said::says))]
pub fn said_by(r: Record) -> Said
    requires { (1 ≤ r.kind) × (r.kind ≤ most_kind) }
    ensures { meaning r ≡ says r.from r.to result }
{
    let Record {
        job,
        ballots,
        stamps,
        table,
        ..
    } = r;
    let ballot = ballots[0];
    // Stays: the kind is a number, since Record and meaning of specs/Rec.antt of records have it so; none but the last is left for the last arm.
    match r.kind {
        records::MULTICAST => Said::Multicast(job),
        records::ACCEPT => {
            let stamp = stamps[0];
            Said::Accept(job, Proposal { ballot, stamp })
        }
        records::ACCEPT_ACK => Said::AcceptAck(job, ballots),
        records::DELIVER => {
            let [local, global] = stamps;
            Said::Deliver(
                job,
                Handout {
                    ballot,
                    local,
                    global,
                },
            )
        }
        records::NEWLEADER => Said::Newleader(ballot),
        records::NEWLEADER_ACK => Said::NewleaderAck(Ballotpaper {
            ballot,
            cballot: ballots[1],
            clock: stamps[0],
            table,
        }),
        records::NEW_STATE => Said::NewState(NewState {
            ballot,
            clock: stamps[0],
            table,
        }),
        _ => Said::NewstateAck(ballot),
    }
}
