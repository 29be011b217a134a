//! How far an idle worker has come on its way to sleep.
ghost use Rattle.std.specs.Prelude.{◌≡◌, ◌+◌, ◌<◌, ◌≤◌};

/// In this round an idle worker announces that it is sleepy. In each round before it yields.
pub const ROUNDS_UNTIL_SLEEPY: u32 = 32;

/// From this round on an idle worker tries to sleep.
pub const ROUNDS_UNTIL_SLEEPING: u32 = ROUNDS_UNTIL_SLEEPY + 1;

/// What an idle worker does next.
#[derive(Clone, Copy, Debug, PartialEq, Eq)]
pub enum Due {
    /// It yields its time.
    Yield,
    /// It announces that it is sleepy.
    Announce,
    /// It tries to sleep.
    Sleep,
}

/// One worker's way to sleep: how many rounds it has been idle for, and the count of events that it
/// found when it announced that it is sleepy.
///
/// Contracts name the worker by `worker_of`, the rounds by `rounds_of` and the events by
/// `recorded_of`.
#[derive(Debug, Drop)]
pub struct IdleState {
    worker_index: usize,
    rounds: u32,
    recorded: Option<u32>,
    ghost at_most: { rounds ≤ 33 },
}

impl IdleState {
    ghost use Rattle.std.specs.Prelude.{◌≡◌, ◌↔◌, ◌+◌, ◌<◌, ◌≤◌, None, Some, min};
    ghost use Rattle.parallel_pool.specs.IdleState.{worker_of, rounds_of, recorded_of};
    ghost use Rattle.parallel_pool.specs.declared.sleep.idle_state.Due.TheVariants.{Yield, Announce, Sleep};

    /// The state of a worker that has just become idle.
    pub fn new(worker_index: usize) -> IdleState
        ensures worker { worker_of result ≡ worker_index }
        ensures rounds { rounds_of result ≡ 0 }
        ensures recorded { recorded_of result ≡ None }
    {
        IdleState {
            worker_index,
            rounds: 0,
            recorded: None,
        }
    }

    /// The worker's index.
    pub fn worker_index(&self) -> usize
        ensures { result ≡ worker_of self.now }
    {
        self.worker_index
    }

    /// The round that the worker is in.
    pub fn rounds(&self) -> u32
        ensures rounds { result ≡ rounds_of self.now }
        ensures at_most { result ≤ ROUNDS_UNTIL_SLEEPING }
    {
        self.rounds
    }

    /// The events that the worker found when it announced that it is sleepy, where it has done so.
    pub fn recorded(&self) -> Option<u32>
        ensures { result ≡ recorded_of self.now }
    {
        self.recorded
    }

    /// What the worker does next.
    pub fn due(&self) -> Due
        ensures yields { (result ≡ Yield) ↔ (rounds_of self.now < ROUNDS_UNTIL_SLEEPY) }
        ensures announces { (result ≡ Announce) ↔ (rounds_of self.now ≡ ROUNDS_UNTIL_SLEEPY) }
        ensures sleeps { (result ≡ Sleep) ↔ (ROUNDS_UNTIL_SLEEPING ≤ rounds_of self.now) }
    {
        if self.rounds < ROUNDS_UNTIL_SLEEPY {
            Due::Yield
        } else if self.rounds == ROUNDS_UNTIL_SLEEPY {
            Due::Announce
        } else {
            Due::Sleep
        }
    }

    /// One more round, up to the first in which the worker tries to sleep.
    pub fn next_round(&mut self)
        ensures worker { worker_of self.new ≡ worker_of self.old }
        ensures rounds { rounds_of self.new ≡ min (rounds_of self.old + 1) ROUNDS_UNTIL_SLEEPING }
        ensures recorded { recorded_of self.new ≡ recorded_of self.old }
    {
        if self.rounds < ROUNDS_UNTIL_SLEEPING {
            self.rounds += 1;
        }
    }

    /// Keeps the events that the worker found when it announced that it is sleepy.
    pub fn record(&mut self, events: u32)
        ensures worker { worker_of self.new ≡ worker_of self.old }
        ensures rounds { rounds_of self.new ≡ rounds_of self.old }
        ensures recorded { recorded_of self.new ≡ Some events }
    {
        self.recorded = Some(events);
    }

    /// The worker was woken, or found a job: it starts at round 0.
    pub fn wake_fully(&mut self)
        ensures worker { worker_of self.new ≡ worker_of self.old }
        ensures rounds { rounds_of self.new ≡ 0 }
        ensures recorded { recorded_of self.new ≡ None }
    {
        self.rounds = 0;
        self.recorded = None;
    }

    /// Events have come since the worker announced itself: it goes back to announce itself again.
    pub fn wake_partly(&mut self)
        ensures worker { worker_of self.new ≡ worker_of self.old }
        ensures rounds { rounds_of self.new ≡ ROUNDS_UNTIL_SLEEPY }
        ensures recorded { recorded_of self.new ≡ None }
    {
        self.rounds = ROUNDS_UNTIL_SLEEPY;
        self.recorded = None;
    }
}
