//! The number that a line is drawn from, and what it says.

ghost use Rattle.std.specs.Prelude.{◌≡◌, ◌+◌, ◌≤◌, ◌%◌, nat_eq};
ghost use Rattle.load_gen.specs.Drawing.{below, drawn, mixed, onto_lowest, strode};
ghost use Rattle.load_gen.specs.Generated.{actor, kind_of, network, port_of, target};

/// The step from one line to the next: 2^64 over the golden ratio.
const STRIDE: u64 = 0x9E37_79B9_7F4A_7C15;

fn mixed(z: u64) -> u64
    ensures { result ≡ mixed z }
{
    let once = (z ^ (z >> 30)).wrapping_mul(0xBF58_476D_1CE4_E5B9);
    let twice = (once ^ (once >> 27)).wrapping_mul(0x94D0_49BB_1331_11EB);
    twice ^ (twice >> 31)
}

/// What a drawn line is.
#[derive(Clone, Copy, Debug, PartialEq, Eq)]
pub enum Kind {
    Announce,
    Withdraw,
    Drain,
    Take,
    Resolve,
    Packet,
    Out,
    In,
    Job,
}

/// What a drawn number says, by its bits.
#[derive(Clone, Copy, Debug, PartialEq, Eq)]
pub struct Drawn(pub u64);

impl Drawn {
    /// The number that the line of this number is drawn from (SplitMix64).
    pub fn new(seed: u64, i: u64) -> Drawn
        ensures { result.0 ≡ drawn seed i }
    {
        Drawn(mixed(seed.wrapping_add(i.wrapping_add(1).wrapping_mul(STRIDE))))
    }

    /// What line is drawn, by the lowest four bits.
    pub fn kind(self) -> Kind
        ensures { result ≡ kind_of (self.0 % 16) }
    {
        match self.0 % 16 {
            0..=4 => Kind::Announce,
            5..=6 => Kind::Withdraw,
            7 => Kind::Drain,
            8 => Kind::Take,
            9 => Kind::Resolve,
            10..=12 => Kind::Packet,
            13 => Kind::Out,
            14 => Kind::In,
            _ => Kind::Job,
        }
    }

    /// The participant that acts, from 1 to 8.
    pub fn actor(self) -> u8
        ensures actor { result ≡ actor self.0 }
        ensures low { 1 ≤ result }
        ensures high { result ≤ 8 }
    {
        ((self.0 >> 8) % 8 + 1) as u8
    }

    /// The participant to which it forwards, from 1 to 8.
    pub fn target(self) -> u8
        ensures target { result ≡ target self.0 }
    {
        ((self.0 >> 24) % 8 + 1) as u8
    }

    /// The second octet of the network.
    pub fn network(self) -> u8
        ensures { result ≡ network self.0 }
    {
        ((self.0 >> 16) % 256) as u8
    }

    /// How many numbers stand in the path behind the first.
    pub fn more(self) -> u8
        ensures more { result ≡ below 4 32 self.0 }
        ensures few { result ≤ 3 }
    {
        ((self.0 >> 32) % 4) as u8
    }

    /// How many advertisements are taken.
    pub fn count(self) -> u8
        ensures { result ≡ 1 + below 8 40 self.0 }
    {
        (1 + (self.0 >> 40) % 8) as u8
    }

    /// The port of a datagram: 80 or 443.
    pub fn port(self) -> u16
        ensures { result ≡ port_of self.0 }
    {
        if (self.0 >> 48).is_multiple_of(2) {
            80
        } else {
            443
        }
    }

    /// Whether a job is to be started.
    pub fn starts_job(self) -> bool
        ensures { result ≡ nat_eq (below 2 40 self.0) 0 }
    {
        (self.0 >> 40).is_multiple_of(2)
    }
}
