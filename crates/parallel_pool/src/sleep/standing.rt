//! Where a worker stands.
/// Where a worker stands: it has work, it looks for work, or it sleeps until it is woken.
///
/// A worker is inactive where it looks or sleeps, and blocked where it sleeps.
#[derive(Clone, Copy, Debug, PartialEq, Eq)]
pub enum Standing {
    Working,
    Looking,
    Sleeping,
}

impl Standing {
    ghost use Rattle.std.specs.Prelude.{◌≡◌};
    ghost use Rattle.parallel_pool.specs.Standings.{is_blocked, is_inactive};

    /// Whether a worker of this standing sleeps.
    pub fn is_blocked(self) -> bool
        ensures { result ≡ is_blocked self }
    {
        match self {
            Standing::Sleeping => true,
            Standing::Working | Standing::Looking => false,
        }
    }

    /// Whether a worker of this standing looks for work or sleeps.
    pub fn is_inactive(self) -> bool
        ensures { result ≡ is_inactive self }
    {
        match self {
            Standing::Working => false,
            Standing::Looking | Standing::Sleeping => true,
        }
    }
}
