use thiserror::Error;

/// The name of a value in a `Slots`: where it stands, and how many values were taken in until then, with this one.
#[derive(Clone, Copy, Debug, PartialEq, Eq)]
pub struct Key {
    pub slot: u32,
    pub generation: u64,
}

/// How many values were taken in, and how many were given back.
#[derive(Clone, Copy, Debug, PartialEq, Eq)]
pub struct Counts {
    pub taken: u64,
    pub returned: u64,
}

/// There was no memory. The value comes back.
#[derive(Drop)]
pub struct Refused<T> {
    pub value: T,
}

/// The key names no value.
#[derive(Clone, Copy, Debug, PartialEq, Eq, Error)]
#[error("the key names nothing any more")]
pub struct Stale;
