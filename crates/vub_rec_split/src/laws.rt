//! Laws of a start: its steps are those of the step table, in their order.
ghost use Rattle.std.specs.Prelude.{◌≡◌, ◌<◌, ℕ, List, slice_get};
ghost use Rattle.vub_shared.specs.Bytes.{Bytes};
ghost use Rattle.vub_steps.specs.Steps.{plan_steps};
ghost use Rattle.vub_steps.specs.Rows.{region_step_at};
ghost use Rattle.vub_rec_split.specs.Stands.{StandsAt};
ghost use Rattle.vub_rec_split.specs.Starts.{RecoveryState, due_in, plan_in, sight_in};

/// Where a recovery finds no more than a life can leave, its next store is that of the next step of
/// its plan: features, entries and header of a new region; or an entry each of the batch along its
/// links, and used_idx. There is none exactly where all of them are made.
pub fn each_step_is_next_of_its_plan()
    ensures { (heads : List ℕ) (s : RecoveryState) (m : Bytes) → ((space place : ℕ) → m space place < 256) → StandsAt heads s m
        → due_in s m ≡ region_step_at (sight_in s m).used (sight_in s m).link (slice_get (plan_steps s.region.size (plan_in s m)) s.done) }
{}
