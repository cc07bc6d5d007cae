/// A fault of the outside: a call that was made and didn't succeed.
#[derive(Clone, Copy, Debug, PartialEq, Eq)]
pub struct Failed;

/// Want of memory.
#[derive(Clone, Copy, Debug, PartialEq, Eq)]
pub struct Memory;
