// What a call answers: done, or why it is refused. The reasons stand in document 01's order of checking.
// Their numbers stand in specs/Answers.antt.
ghost use Rattle.std.specs.Prelude.{◌≡◌};
ghost use Rattle.records.specs.Answers.{refusal_no};

#[derive(Clone, Copy, Debug, PartialEq, Eq)]
pub enum Refusal {
    // plan or box not sound
    NotSound = 1,

    // tray under 4,096 bytes
    SmallTray,

    // unknown kind, a section count that isn't its kind's, bytes missing or left over
    Unreadable,

    // a value breaks a rule
    BrokenRule,

    // "to" is another box
    OtherBox,

    // job doesn't name the district
    NotNamed,

    // status
    WrongStatus,

    // ballot
    WrongBallot,

    // already done
    AlreadyDone,

    // clock or ballot limit
    AtLimit,

    // rehearsal: no such box, job or record
    NoSuch,

    // rehearsal: post full
    PostFull,
}

pub type Answer = Result<(), Refusal>;

// the number that document 01 gives it
impl From<Refusal> for u8 {
    ghost from_gives = { λ why n. n ≡ refusal_no why };

    fn from(why: Refusal) -> u8 {
        why as u8
    }
}
