//! Three counts, and the word that has them all.
ghost use Rattle.std.specs.Prelude.{◌≡◌, ◌+◌, ◌*◌};

/// How many workers sleep, how many are inactive, and the count of events.
///
/// Contracts name the three by `sleeping_of`, `inactive_of` and `events_of`.
#[derive(Clone, Copy, Debug, PartialEq, Eq)]
pub struct Counters {
    sleeping: u16,
    inactive: u16,
    events: u32,
}

impl Counters {
    ghost use Rattle.parallel_pool.specs.Counters.{sleeping_of, inactive_of, events_of};

    /// The counters of these three counts.
    pub fn new(sleeping: u16, inactive: u16, events: u32) -> Counters
        ensures sleeping { sleeping_of result ≡ sleeping }
        ensures inactive { inactive_of result ≡ inactive }
        ensures events { events_of result ≡ events }
    {
        Counters {
            sleeping,
            inactive,
            events,
        }
    }

    /// The three counts in one word: 16 bits of sleeping workers, then 16 of inactive ones, then 32
    /// of events.
    pub fn word(&self) -> u64
        ensures { result ≡ sleeping_of self.now + 65536 * inactive_of
            self.now + 4294967296 * events_of self.now }
    {
        self.sleeping as u64 + 65_536 * self.inactive as u64 + 4_294_967_296 * self.events as u64
    }

    /// How many workers sleep.
    pub fn sleeping(&self) -> u16
        ensures { result ≡ sleeping_of self.now }
    {
        self.sleeping
    }

    /// How many workers are inactive: they look for work, or sleep.
    pub fn inactive(&self) -> u16
        ensures { result ≡ inactive_of self.now }
    {
        self.inactive
    }

    /// The count of events.
    pub fn events(&self) -> u32
        ensures { result ≡ events_of self.now }
    {
        self.events
    }
}
