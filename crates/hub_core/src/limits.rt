// How much the hub takes.
ghost use Rattle.std.specs.Prelude.{◌≡◌};
ghost use Rattle.hub_core.specs.Standing.{usual};

/// The most that a hub takes.
#[derive(Clone, Copy, Debug, PartialEq, Eq)]
pub struct Limits {
    /// Octets of the log.
    pub log: u64,
    /// Submissions that are remembered.
    pub live: u64,
    /// Octets of their messages.
    pub bytes: u64,
    /// Live organisations: the newest, and those by which a submission is planned that has a release waiting to be
    /// categorised, an approval pending or an item waiting.
    pub epochs: u64,
}

impl Limits {
    /// The limits of the program: a log of 2^40 octets, 100,000 submissions, 2 GiB of their messages, and 64 live
    /// organisations.
    pub fn usual() -> Limits
        ensures { result ≡ usual }
    {
        Limits {
            log: 1_099_511_627_776,
            live: 100_000,
            bytes: 2_147_483_648,
            epochs: 64,
        }
    }
}
