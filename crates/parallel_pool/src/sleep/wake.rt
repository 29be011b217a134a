//! Waking the blocked workers of the lowest indices.
ghost use Rattle.std.specs.Prelude.{◌≡◌, ◌+◌, ◌≤◌, length, take, vec_len, vec_capacity};
ghost use Rattle.parallel_pool.specs.Standings.{sleeping_in, inactive_in, blocked_of, AreWoken};

use crate::sleep::standing::Standing;

// Wakes as many blocked workers as there are, but no more than `most`, from the lowest index, and
// lists them in `woken`, which has room for all workers.
pub(crate) fn wake_first(standings: &mut [Standing], most: usize, woken: &mut Vec<usize>)
    requires { length standings.old ≤ vec_capacity woken.old }
    ensures woken { woken.new.items ≡ take most (blocked_of standings.old) }
    ensures standings { AreWoken woken.new.items standings.old standings.new }
    ensures sleeping { sleeping_in standings.new + vec_len woken.new ≡ sleeping_in standings.old }
    ensures inactive { inactive_in standings.new ≡ inactive_in standings.old }
    ensures room { vec_capacity woken.new ≡ vec_capacity woken.old }
{
    woken.clear();
    for worker in 0..standings.len() {
        if woken.len() < most && standings[worker].is_blocked() {
            standings[worker] = Standing::Looking;
            woken.push_reserved(worker);
        }
    }
}
