//! Laws of sessions: the spaces that one keeps stay those that were handed out, and when a queue is drained.
ghost use Rattle.std.specs.Prelude.{ℕ, ◌≡◌, ◌≤◌, ◌↔◌, Bool, List, Option, Some, All, length};
ghost use Rattle.vub_blkreq.specs.declared.config.DeviceConfig.{DeviceConfig};
ghost use Rattle.vub_session.specs.Finds.{AreFound};
ghost use Rattle.vub_session.specs.Lies.{AreHeld, AreSized, IsFoundHeld};
ghost use Rattle.vub_session.specs.State.{new_state};
ghost use Rattle.vub_session.specs.Table.{StopsAttached, answered, drained, stopped};
ghost use Rattle.vub_session.specs.declared.finding.Found.{Found};
ghost use Rattle.vub_session.specs.declared.state.State.{State};
ghost use Rattle.vub_shared.specs.Spaces.{KeepsHanded, Names};
ghost use Rattle.vub_wire.specs.declared.messages.Header.{Header};
ghost use Rattle.vub_wire.specs.declared.messages.Message.{Message};

/// Where each space that a session keeps was handed out with its size, and each that was found too, this
/// holds after any message, and as long as no space that was handed out changes its size. It is what the
/// setup of a queue asks of the sizes.
pub fn spaces_stay_held()
    ensures answered { (handed : ℕ → Bool) (sizes : ℕ → ℕ) (s : State) (h : Header) (m : Message) (found : List Found) → AreHeld handed sizes s → All (IsFoundHeld handed sizes) found → AreHeld handed sizes (answered s h m found).0 }
    ensures kept { (handed now_handed : ℕ → Bool) (sizes now_sizes : ℕ → ℕ) (s : State) → KeepsHanded handed sizes now_handed now_sizes → AreHeld handed sizes s → AreHeld now_handed now_sizes s }
    ensures found { (told : Option Names) (handed : ℕ → Bool) (sizes : ℕ → ℕ) (names : List (List ℕ)) (found : List Found) → AreFound told handed sizes names found → length found ≤ length names → All (IsFoundHeld handed sizes) found }
    ensures new { (handed : ℕ → Bool) (sizes : ℕ → ℕ) (config : DeviceConfig) → AreHeld handed sizes (new_state config) }
    ensures stopped { (handed : ℕ → Bool) (sizes : ℕ → ℕ) (s : State) (queue base : ℕ) → AreHeld handed sizes s → AreHeld handed sizes (stopped s queue base) }
    ensures sized { (handed : ℕ → Bool) (sizes : ℕ → ℕ) (s : State) → AreHeld handed sizes s → AreSized sizes s }
{}

/// A message drains a queue exactly where it is a GET_VRING_BASE of one that is attached.
pub fn stopping_an_attached_queue_drains()
    ensures { (s : State) (m : Message) (queue : ℕ) → (drained s m ≡ Some queue) ↔ StopsAttached s m queue }
{}
