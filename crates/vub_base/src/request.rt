ghost use Rattle.std.specs.Prelude.{◌≡◌};

use arrayvec::ArrayVec;

/// Where the driver places the descriptors of a request.
#[derive(Clone, Copy, Debug, PartialEq, Eq)]
pub enum Shape {
    /// In the ring.
    Direct,
    /// In an indirect table that one descriptor of the ring names.
    Indirect,
}

/// One part of a discard or a zeroing: so many sectors from one on, with its flags.
#[derive(Clone, Copy, Debug, Default, PartialEq, Eq)]
pub struct Part {
    pub sector: u64,
    pub count: u32,
    pub flags: u32,
}

/// A request as a schedule asks for it. A write has one byte for each of its sectors, which fills
/// the sector.
#[derive(Clone, Debug, Drop, PartialEq, Eq)]
pub enum Ask {
    Read { sector: u64, count: u16 },
    Write { sector: u64, fills: ArrayVec<u8, 8> },
    Flush,
    Id,
    Discard(ArrayVec<Part, 4>),
    Zero(ArrayVec<Part, 4>),
}

impl Ask {
    /// The same request once more. Takes no memory.
    pub fn copied(&self) -> Ask
        ensures { result ≡ self.now }
    {
        match self.clone() {
            Ok(ask) => ask,
            Err(_) => unreachable!(),
        }
    }
}
