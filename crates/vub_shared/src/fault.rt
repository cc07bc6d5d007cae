/// Why a `find` or a `create` answered no space.
#[derive(Clone, Copy, Debug, PartialEq, Eq)]
pub enum SharedFault {
    /// The call failed.
    Failed,
    /// The name means no space.
    NoSuch,
    /// Want of memory.
    Memory,
}
