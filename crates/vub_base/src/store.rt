/// A space of shared memory, by the number under which it was handed out.
#[derive(Clone, Copy, Debug, PartialEq, Eq)]
pub struct Space {
    pub number: u16,
}

/// The spaces that a record names: guest memory and the in-flight region.
#[derive(Clone, Copy, Debug, PartialEq, Eq)]
pub enum Area {
    /// Guest memory, `m`.
    M,
    /// The in-flight region, `i`.
    I,
}

/// The stores by their place in the protocol. `G` is a store of the guest and `K` one of a poke;
/// `S` and `P` begin those on split and packed queues: `I` of an initialisation, `F` of a fetch,
/// `P` of a publication, `R` of a recovery. `T2` stores data of a request and `T5` its status.
#[derive(Clone, Copy, Debug, PartialEq, Eq)]
pub enum Tag {
    G,
    K,
    SI1,
    SI2,
    SI3,
    SF1,
    SF2,
    SP1,
    SP2,
    SP3,
    SP4,
    SP5,
    SP6,
    SP7,
    SR1,
    SR2,
    PI1,
    PI2,
    PI3,
    PI4,
    PI5,
    PF1,
    PF2,
    PF3,
    PF4,
    PF5,
    PF6,
    PF7,
    PF8,
    PF9,
    PP1,
    PP2,
    PP3,
    PP4,
    PP5,
    PP6,
    PP7,
    PP8,
    PP9,
    PR1,
    PR2,
    PR3,
    PR4,
    PR5,
    PR6,
    T2,
    T5,
}
