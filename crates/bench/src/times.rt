//! What is told of a list of times.
use anyhow::{Context, Result};
use std::fmt;

/// The least of several times and one in their middle, in nanoseconds.
#[derive(Clone, Copy)]
pub struct Times {
    pub best: u64,
    pub median: u64,
}

impl Times {
    /// The least of the readings, and one of them that at most half of them are below, and at most
    /// half above.
    ///
    /// # Errors
    ///
    /// What was refused.
    pub fn of(readings: Vec<u64>) -> Result<Times> {
        let mut sorted = readings;
        sorted.sort()?;
        let best = *sorted.first().context("nothing was timed")?;
        let median = *sorted.get(sorted.len() / 2).context("nothing was timed")?;
        Ok(Times { best, median })
    }
}

/// A number of thousandths, which prints as `1.250` for 1250 of them.
#[derive(Clone, Copy)]
pub struct Decimal {
    thousandths: u128,
}

impl Decimal {
    /// The nanoseconds in microseconds.
    pub fn microseconds(nanoseconds: u64) -> Decimal {
        Decimal {
            thousandths: u128::from(nanoseconds),
        }
    }

    /// How many times a whole goes into a number, rounded down to a thousandth; none where the
    /// whole is 0.
    pub fn ratio(number: u64, whole: u64) -> Option<Decimal> {
        if whole == 0 {
            return None;
        }
        Some(Decimal {
            thousandths: u128::from(number) * 1000 / u128::from(whole),
        })
    }
}

impl fmt::Display for Decimal {
    fn fmt<W: fmt::Write>(&self, f: &mut fmt::Formatter<W>) -> fmt::Result {
        let whole = self.thousandths / 1000;
        let rest = self.thousandths % 1000;
        write!(f, "{whole}.{rest:03}")
    }
}
