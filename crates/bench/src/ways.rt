//! The ways in which a case is run, and what it returns.
use std::alloc::{AllocError, Global};

/// A way in which a case is run.
#[derive(Clone, Copy)]
pub enum Way {
    /// A plain loop over the slice, or the plain chain that stands for a loop that collects.
    Loop,
    /// The strategy `Sequential`.
    Sequential,
    /// The strategy `Rayon`, without a policy.
    Rayon,
    /// The strategy `Rayon`, with its policy.
    Policy,
    /// The kit's `rayon`.
    Kit,
}

/// The ways with what their lines begin with, in the order of every other round and of the lines.
pub const WAYS: [(&str, Way); 5] = [
    ("loop", Way::Loop),
    ("Sequential", Way::Sequential),
    ("Rayon", Way::Rayon),
    ("Rayon with its policy", Way::Policy),
    ("kit-rayon", Way::Kit),
];

impl Way {
    /// The way that a word of the command line names.
    pub fn named(word: &str) -> Option<Way> {
        match word {
            "loop" => Some(Way::Loop),
            "sequential" => Some(Way::Sequential),
            "rayon" => Some(Way::Rayon),
            "policy" => Some(Way::Policy),
            "kit-rayon" => Some(Way::Kit),
            _ => None,
        }
    }
}

/// What a strategy is given the items by.
#[derive(Clone, Copy)]
pub enum Form {
    /// The slice, each item copied as it comes.
    Slice,
    /// An iterator over it, which is no list.
    Iterator,
    /// The same iterator, asked for its number.
    Counted,
    /// A list of its own, which the call takes.
    Owned,
}

impl Form {
    /// The form that a word of the command line names.
    pub fn named(word: &str) -> Option<Form> {
        match word {
            "iter" => Some(Form::Iterator),
            "counted" => Some(Form::Counted),
            "vec" => Some(Form::Owned),
            _ => None,
        }
    }
}

/// The items in a form.
#[derive(Drop)]
pub enum Items<'a> {
    Slice(&'a [u64]),
    Iterator(&'a [u64]),
    Counted(&'a [u64]),
    Owned(Vec<u64>),
}

impl<'a> Items<'a> {
    /// The items, copied where the call takes its list.
    ///
    /// # Errors
    ///
    /// `AllocError` if an allocation fails.
    pub fn of(alloc: Global, form: Form, items: &'a [u64]) -> Result<Self, AllocError> {
        match form {
            Form::Slice => Ok(Items::Slice(items)),
            Form::Iterator => Ok(Items::Iterator(items)),
            Form::Counted => Ok(Items::Counted(items)),
            Form::Owned => Ok(Items::Owned(items.iter().copied().collect(alloc)?)),
        }
    }

    /// The items as they lie.
    pub fn as_slice(&self) -> &[u64] {
        match self {
            Items::Slice(items) => items,
            Items::Iterator(items) => items,
            Items::Counted(items) => items,
            Items::Owned(items) => items.as_slice(),
        }
    }
}

/// What a case returns.
#[derive(Drop)]
pub enum Answer {
    Numbers(Vec<u64>),
    Number(u64),
    /// The values and the keys of a partition.
    Parts(Vec<u64>, Vec<u64>),
}

impl Answer {
    /// A number by which two results are told apart.
    pub fn checksum(&self) -> u64 {
        match self {
            Answer::Numbers(numbers) => checksum_of(numbers.as_slice()),
            Answer::Number(number) => *number,
            Answer::Parts(values, keys) => {
                checksum_of(values.as_slice()).rotate_left(1) ^ checksum_of(keys.as_slice())
            }
        }
    }
}

fn checksum_of(numbers: &[u64]) -> u64 {
    let mut sum = 0u64;
    for number in numbers {
        sum = sum.rotate_left(1) ^ *number;
    }
    sum
}
