//! Laws of all messages and their bytes, and of all calls of a cutter.
ghost use Rattle.std.specs.Prelude.{◌≡◌, ◌≢◌, ◌++◌, ◌<◌, ◌-◌, ◌^◌, ℕ, List, false, length, Some};
ghost use Rattle.vub_wire.specs.declared.numbers.TheConstants.{VERSION};
ghost use Rattle.vub_wire.specs.declared.fault.WireFault.{WireFault};
ghost use Rattle.vub_wire.specs.declared.fault.WireFault.TheVariants.{NeedMore};
ghost use Rattle.vub_wire.specs.declared.messages.Header.{Header};
ghost use Rattle.vub_wire.specs.declared.messages.Message.{Message};
ghost use Rattle.vub_wire.specs.declared.messages.Reply.{Reply};
ghost use Rattle.vub_wire.specs.Flags.{version, marks_reply};
ghost use Rattle.vub_wire.specs.Grammar.{Fits, IsMessage};
ghost use Rattle.vub_wire.specs.Faults.{message_fault};
ghost use Rattle.vub_wire.specs.Replies.{IsReply};
ghost use Rattle.vub_wire.specs.Streams.{AreFirst, AllFault, HasNoMessage, Held, fresh, total, Call, Ran, joined, handed};
ghost use Rattle.vub_wire.specs.Writing.{written_header, message_bytes};

/// No two messages share their bytes, no message begins with the bytes of another, and a message has
/// one spelling up to its free bytes.
pub fn one_message()
    ensures message { (first second rest others : List ℕ) (h k : Header) (m n : Message) → IsMessage first h m → IsMessage second k n → first ++ rest ≡ second ++ others
        → (first ≡ second) × (h ≡ k) × (m ≡ n) }
    ensures bytes { (first second : List ℕ) (h : Header) (m : Message) (a : IsMessage first h m) (b : IsMessage second h m)
        → a.carries.padding ≡ b.carries.padding → a.carries.tail ≡ b.carries.tail → first ≡ second }
{}

/// The same of replies, whose flags are free but for the version and the reply bit.
pub fn one_reply()
    ensures reply { (first second rest others : List ℕ) (r s : Reply) → IsReply first r → IsReply second s → first ++ rest ≡ second ++ others
        → (first ≡ second) × (r ≡ s) }
    ensures bytes { (first second : List ℕ) (r : Reply) (a : IsReply first r) (b : IsReply second r) → a.flags ≡ b.flags → a.tail ≡ b.tail → first ≡ second }
{}

/// What is written with version 1 and no reply bit is that message with that header, so that it is
/// read again, whatever follows it.
pub fn written_is_read()
    ensures { (m : Message) (flags : ℕ) → Fits m → flags < 2 ^ 32 → version flags ≡ VERSION → marks_reply flags ≡ false
        → IsMessage (message_bytes m flags) (written_header m flags) m }
{}

/// A fault other than `NeedMore` stays, whatever follows it, and where a fault is no message stands.
pub fn a_fault_stays()
    ensures stays { (bytes more : List ℕ) (e : WireFault) → message_fault bytes ≡ Some e → e ≢ NeedMore → message_fault (bytes ++ more) ≡ Some e }
    // A cutter that met it answers it at each later call.
    ensures again { (calls : List Call) (s t : Held) (e : WireFault) → Ran s calls t → message_fault s.held ≡ Some e → e ≢ NeedMore → AllFault e calls }
    ensures none { (bytes : List ℕ) (e : WireFault) → message_fault bytes ≡ Some e → HasNoMessage bytes }
{}

/// Over any calls of a cutter from `new` on, the messages handed out are the first ones of all pieces
/// joined, and what is held is the rest. `taken` is the sum of their lengths.
pub fn any_chunking()
    ensures first { (calls : List Call) (s : Held) → Ran fresh calls s → AreFirst (joined calls) (handed calls) s.held }
    ensures taken { (calls : List Call) (s : Held) → Ran fresh calls s → s.taken ≡ total 0 (length (joined calls) - length s.held) }
    // However the same bytes are cut, the same messages are handed out once none is left at the front.
    ensures same { (a b : List Call) (s t : Held) → Ran fresh a s → Ran fresh b t → joined a ≡ joined b → HasNoMessage s.held → HasNoMessage t.held
        → (handed a ≡ handed b) × (s.held ≡ t.held) }
{}
