//! What the workloads are.

/// What happens once.
#[derive(Clone, Copy, Debug)]
pub(crate) enum Act {
    /// A unit comes over the wire for a station.
    Into,
    /// A unit comes over the wire for the group.
    IntoGroup,
    /// A station sends a unit to the wire.
    Outward,
    /// A station sends a unit to another.
    Across,
    /// A station sends a unit to the group.
    Group,
    /// A station asks for its oldest unit.
    Poll,
    /// A station dozes, or wakes.
    Nap,
    /// A station leaves and comes again.
    Roam,
    /// A station leaves.
    Leave,
    /// A station authenticates, and asks to associate.
    Come,
    /// A station asks all networks to answer.
    Probe,
    /// A station that is in no network asks all networks to answer.
    Scan,
    /// A frame that no network reads, or a line that says nothing.
    Odd,
}

/// A workload: its networks and stations, and how often what happens.
pub(crate) struct Job {
    pub(crate) networks: u8,
    /// The stations of a network.
    pub(crate) stations: u16,
    pub(crate) max_stations: u16,
    pub(crate) max_known: u16,
    pub(crate) quota: u32,
    /// Whether units age in each second network.
    pub(crate) ages: bool,
    /// Whether stations doze once they joined.
    pub(crate) dozes: bool,
    /// How many acts come between two beacon intervals, or 0 if none begins.
    pub(crate) interval: u32,
    /// How many of a hundred units have 1,400 octets. The others have 32 to 127.
    pub(crate) long: usize,
    /// Whether digits are written in each way that is read.
    pub(crate) styled: bool,
    /// The acts, each up to a number of a thousand.
    pub(crate) acts: &'static [(usize, Act)],
}

/// A recorded day of four networks.
pub(crate) const DAY: Job = Job {
    networks: 4,
    stations: 100,
    max_stations: 200,
    max_known: 400,
    quota: 1000,
    ages: false,
    dozes: false,
    interval: 60,
    long: 40,
    styled: false,
    acts: &[
        (330, Act::Into),
        (340, Act::IntoGroup),
        (620, Act::Outward),
        (720, Act::Across),
        (730, Act::Group),
        (830, Act::Poll),
        (930, Act::Nap),
        (940, Act::Roam),
        (980, Act::Probe),
        (1000, Act::Odd),
    ],
};

/// An access point of sixteen networks that is asked in records.
pub(crate) const RECORDS: Job = Job {
    networks: 16,
    stations: 40,
    max_stations: 100,
    max_known: 200,
    quota: 1000,
    ages: true,
    dozes: false,
    interval: 100,
    long: 45,
    styled: false,
    acts: &[
        (380, Act::Into),
        (390, Act::IntoGroup),
        (750, Act::Outward),
        (820, Act::Across),
        (880, Act::Poll),
        (950, Act::Nap),
        (960, Act::Roam),
        (1000, Act::Probe),
    ],
};

/// An access point of eight networks that is asked in lines.
pub(crate) const LINES: Job = Job {
    networks: 8,
    stations: 60,
    max_stations: 100,
    max_known: 200,
    quota: 1000,
    ages: true,
    dozes: false,
    interval: 100,
    long: 25,
    styled: false,
    acts: &[
        (360, Act::Into),
        (370, Act::IntoGroup),
        (700, Act::Outward),
        (780, Act::Across),
        (860, Act::Poll),
        (930, Act::Nap),
        (950, Act::Roam),
        (1000, Act::Probe),
    ],
};

/// Two of eight networks, of which each of four traces tells.
pub(crate) const PLAY: Job = Job {
    networks: 8,
    stations: 100,
    max_stations: 200,
    max_known: 400,
    quota: 1000,
    ages: false,
    dozes: false,
    interval: 0,
    long: 15,
    styled: false,
    acts: &[
        (330, Act::Into),
        (340, Act::IntoGroup),
        (640, Act::Outward),
        (800, Act::Across),
        (810, Act::Group),
        (890, Act::Poll),
        (970, Act::Nap),
        (1000, Act::Roam),
    ],
};

/// A station that asks all of eight networks, which each of four traces hears.
pub(crate) const SCAN: Job = Job {
    networks: 8,
    stations: 0,
    max_stations: 1,
    max_known: 1,
    quota: 0,
    ages: false,
    dozes: false,
    interval: 0,
    long: 0,
    styled: false,
    acts: &[(1000, Act::Scan)],
};

/// Two networks, each full of stations that doze. In the second, units age.
pub(crate) const DOZE: Job = Job {
    networks: 2,
    stations: 2007,
    max_stations: 2007,
    max_known: 4000,
    quota: 20_000,
    ages: true,
    dozes: true,
    interval: 100,
    long: 10,
    styled: false,
    acts: &[
        (560, Act::Into),
        (580, Act::IntoGroup),
        (680, Act::Outward),
        (690, Act::Group),
        (950, Act::Poll),
        (1000, Act::Nap),
    ],
};

/// A network in which more guests come and go than it may know, in lines of each style.
pub(crate) const GUESTS: Job = Job {
    networks: 1,
    stations: 12_000,
    max_stations: 2007,
    max_known: 10_000,
    quota: 200,
    ages: false,
    dozes: false,
    interval: 50,
    long: 5,
    styled: true,
    acts: &[
        (150, Act::Into),
        (160, Act::IntoGroup),
        (300, Act::Outward),
        (320, Act::Across),
        (380, Act::Nap),
        (400, Act::Poll),
        (600, Act::Leave),
        (900, Act::Come),
        (950, Act::Probe),
        (1000, Act::Odd),
    ],
};
