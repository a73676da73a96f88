// The parts that a record's sections hold: ballots, stamps and rows, each of so many bytes, and 'none' where a kind has no use for a place.
// Their bytes stand in specs/Fields.antt.
ghost use Rattle.std.specs.Prelude.{◌≡◌, ◌≤◌, ℕ, Bool, length};
ghost use Rattle.laws.specs.Codec.{Codec};
ghost use Rattle.laws.specs.Tray.{onto};
ghost use Rattle.house.specs.Pairs.{no_stamp, no_ballot, no_row, is_no_stamp, is_no_ballot};
ghost use Rattle.records.specs.Fields.{ballots, stamps, rows, ballot_width, stamp_width, row_width};
ghost use Rattle.records.specs.Rules.{is_no_row};

use house::{Ballot, BoxNo, District, Row, Stamp};

pub trait Part: Copy {
    // its bytes, and what bytes say
    ghost codec: { Codec Self };

    // what stands in a place that a kind has no use for, and the test for it
    ghost nothing: { Self };

    ghost is_nothing: { Self → Bool };

    // how many bytes each has
    ghost WIDTH: { ℕ };

    ghost wide: { codec.w ≡ WIDTH };

    const WIDTH: usize;

    fn none() -> Self
        ensures { result ≡ nothing };

    // Stays: one comparison in each impl, since a default would need a law of `==` for each type and is no plainer.
    fn is_none(self) -> bool
        ensures { result ≡ is_nothing self };

    // its bytes over the front of the tray
    fn put(self, t: &mut [u8])
        requires { WIDTH ≤ length t.old }
        ensures { t.new ≡ onto (codec.enc self) t.old };

    // what the bytes at the front say
    fn get(s: &[u8]) -> Self
        requires { WIDTH ≤ length s.now }
        ensures { result ≡ codec.dec s.now };
}

// the number with its big end first, then the box
#[tactic(auto, unfolding(crate::specs::Fields::ballots, laws::specs::Tray::onto))]
impl Part for Ballot {
    ghost codec = { ballots };

    ghost nothing = { no_ballot };

    ghost is_nothing = { is_no_ballot };

    ghost WIDTH = { 3 };

    ghost wide = { ballot_width };

    const WIDTH: usize = 3;

    fn none() -> Ballot {
        house::no_ballot()
    }

    #[tactic(auto, unfolding(house::specs::Pairs::is_no_ballot, house::specs::Pairs::same_ballot))]
    fn is_none(self) -> bool {
        self == Ballot::none()
    }

    fn put(self, t: &mut [u8]) {
        t[..2].copy_from_slice(&self.number.to_be_bytes());
        t[2] = self.owner.0;
    }

    fn get(s: &[u8]) -> Ballot {
        Ballot {
            number: u16::from_be_bytes([s[0], s[1]]),
            owner: BoxNo(s[2]),
        }
    }
}

// the time with its big end first, then the district
#[tactic(auto, unfolding(crate::specs::Fields::stamps, laws::specs::Tray::onto))]
impl Part for Stamp {
    ghost codec = { stamps };

    ghost nothing = { no_stamp };

    ghost is_nothing = { is_no_stamp };

    ghost WIDTH = { 5 };

    ghost wide = { stamp_width };

    const WIDTH: usize = 5;

    fn none() -> Stamp {
        house::no_stamp()
    }

    #[tactic(auto, unfolding(house::specs::Pairs::is_no_stamp, house::specs::Pairs::same_stamp))]
    fn is_none(self) -> bool {
        self == Stamp::none()
    }

    fn put(self, t: &mut [u8]) {
        t[..4].copy_from_slice(&self.time.to_be_bytes());
        t[4] = self.district.0;
    }

    fn get(s: &[u8]) -> Stamp {
        Stamp {
            time: u32::from_be_bytes([s[0], s[1], s[2], s[3]]),
            district: District(s[4]),
        }
    }
}

// phase, local, global; none at its start
#[tactic(auto, unfolding(crate::specs::Rules::is_no_row, crate::specs::Rules::start_row, house::specs::Pairs::is_no_stamp, house::specs::Pairs::same_stamp))]
impl Part for Row {
    ghost codec = { rows };

    ghost nothing = { no_row };

    ghost is_nothing = { is_no_row };

    ghost WIDTH = { 11 };

    ghost wide = { row_width };

    const WIDTH: usize = 11;

    fn none() -> Row {
        house::no_row()
    }

    fn is_none(self) -> bool {
        self == Row::none()
    }

    fn put(self, t: &mut [u8]) {
        t[0] = self.phase;
        self.local.put(&mut t[1..]);
        self.global.put(&mut t[6..]);
    }

    #[tactic(auto, using(laws::proofs::laws::Tray::rest_of), unfolding(crate::specs::Fields::rows, crate::specs::Fields::stamps))]
    fn get(s: &[u8]) -> Row {
        Row {
            phase: s[0],
            local: Stamp::get(&s[1..]),
            global: Stamp::get(&s[6..]),
        }
    }
}
