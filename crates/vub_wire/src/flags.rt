ghost use Rattle.std.specs.Prelude.{⊤, ◌≡◌, [], ◌∷◌, codes};
ghost use Rattle.vub_wire.specs.Flags.{version, marks_reply, needs_reply};

use bitflags::{Flag, Flags, bitflag_items};

/// The flags of a header ("Header"). Other bits mean nothing.
#[derive(Clone, Copy, Debug, PartialEq, Eq)]
pub struct HeaderFlags(pub u32);

bitflag_items! {
    impl HeaderFlags: u32 {
        /// The bits that hold the version.
        const VERSION = 0x3;
        /// Marks a reply.
        const REPLY = 0x4;
        /// Asks for a reply where a request has none, to tell whether it was carried out.
        const NEED_REPLY = 0x8;
    }
}

impl Flags for HeaderFlags {
    type Bits = u32;

    ghost exact = { ⊤ };

    ghost table = { (codes "VERSION", 3) ∷ (codes "REPLY", 4) ∷ (codes "NEED_REPLY", 8) ∷ [] };

    ghost set_of = { λ f. f.0 };

    fn flags<'a>() -> &'a [Flag<HeaderFlags>] {
        HeaderFlags::FLAGS
    }

    fn bits(&self) -> u32 {
        self.0
    }

    fn from_bits_retain(bits: u32) -> HeaderFlags {
        HeaderFlags(bits)
    }
}

impl HeaderFlags {
    /// The version of the protocol.
    pub fn version(self) -> u32
        ensures { result ≡ version self.0 }
    {
        self.intersection(HeaderFlags::VERSION).bits()
    }

    /// Whether the bit of a reply is set.
    #[tactic(auto, using(crate::proofs::FlagLemmas::reply_bit))]
    pub fn is_reply(self) -> bool
        ensures { result ≡ marks_reply self.0 }
    {
        self.contains(HeaderFlags::REPLY)
    }

    /// Whether the bit that asks for a reply is set.
    #[tactic(auto, using(crate::proofs::FlagLemmas::need_reply_bit))]
    pub fn needs_reply(self) -> bool
        ensures { result ≡ needs_reply self.0 }
    {
        self.contains(HeaderFlags::NEED_REPLY)
    }
}
