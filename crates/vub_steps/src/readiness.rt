ghost use Rattle.std.specs.Prelude.{◌≡◌, ℕ, false};
ghost use Rattle.vub_steps.specs.declared.readiness.Choice.TheVariants.{Only};
ghost use Rattle.vub_steps.specs.declared.readiness.Standing.{Standing};
ghost use Rattle.vub_steps.specs.declared.readiness.Turn.{Turn};
ghost use Rattle.vub_steps.specs.Readiness.{is_ready, first_ready, any_turn, draining_turn, chosen};

use crate::steps::Phase;

/// What the device is asked to do on a queue.
#[derive(Clone, Copy, Debug, PartialEq, Eq)]
pub enum Turn {
    /// A step of its start.
    Start,
    /// A step of a fetch, which accepts a request.
    Fetch,
    /// A step of the request in this place among the accepted ones that aren't completed.
    Work(u16),
    /// A step of a publication, of at most so many requests if it begins one.
    Publish(u16),
}

/// What decides which turns of a queue are ready.
#[derive(Clone, Copy, Debug, PartialEq, Eq)]
pub struct Standing {
    /// The queue was started in this life.
    pub started: bool,
    pub phase: Phase,
    /// How many requests wait from the avail position on.
    pub waiting: u16,
    /// A counter is left for one more.
    pub counts: bool,
    /// How many are accepted and not completed.
    pub unfinished: u16,
    /// How many are completed and not taken into a batch.
    pub completed: u16,
}

/// Whether a turn would make a step.
pub fn is_ready(standing: &Standing, turn: Turn) -> bool
    ensures { result ≡ is_ready standing.now turn }
{
    let fetching = matches!(standing.phase, Phase::Fetch(_));
    let publishing = matches!(standing.phase, Phase::Publish(_));
    match turn {
        Turn::Start => !standing.started,
        Turn::Fetch => {
            standing.started
                && !publishing
                && (fetching || (standing.counts && standing.waiting > 0))
        }
        Turn::Work(place) => standing.started && place < standing.unfinished,
        Turn::Publish(most) => {
            standing.started && !fetching && (publishing || (most > 0 && standing.completed > 0))
        }
    }
}

/// The first of these turns that is ready; where none is, the last one.
fn first_ready(standing: &Standing, turns: &[Turn], last: Turn) -> Turn
    ensures { result ≡ first_ready standing.now turns.now last }
{
    match turns {
        [] => last,
        [turn, rest @ ..] => {
            if is_ready(standing, *turn) {
                *turn
            } else {
                first_ready(standing, rest, last)
            }
        }
    }
}

/// The first turn that is ready of start, the phase under way, fetch, work on the oldest request
/// and publication of all, for a queue of so many places. The last one stands for none.
fn any_turn(size: u16, standing: &Standing) -> Turn
    ensures { result ≡ any_turn size standing.now }
{
    let all = Turn::Publish(size);
    match standing.phase {
        Phase::Publish(_) => first_ready(
            standing,
            &[Turn::Start, all, Turn::Fetch, Turn::Work(0)],
            all,
        ),
        Phase::Fetch(_) => first_ready(
            standing,
            &[Turn::Start, Turn::Fetch, Turn::Fetch, Turn::Work(0)],
            all,
        ),
        Phase::Rest | Phase::Start(_) => {
            first_ready(standing, &[Turn::Start, Turn::Fetch, Turn::Work(0)], all)
        }
    }
}

/// The next turn of a drain that has accepted as many requests as the queue has places: none that
/// fetches.
fn draining_turn(size: u16, standing: &Standing) -> Turn
    ensures { result ≡ draining_turn size standing.now }
{
    let all = Turn::Publish(size);
    match standing.phase {
        Phase::Publish(_) => first_ready(standing, &[all, Turn::Work(0)], all),
        _ => first_ready(standing, &[Turn::Work(0)], all),
    }
}

/// Which turn of a queue comes next.
#[derive(Clone, Copy, Debug, PartialEq, Eq)]
pub enum Choice {
    /// This one.
    Only(Turn),
    /// The first one that is ready of start, the phase under way, fetch, work on the oldest request
    /// and publication of all. The last one stands for none.
    Any,
    /// The next one of a drain that has accepted so many requests: any, and once they are as many
    /// as the queue has places none that fetches.
    Drain(u16),
}

impl Choice {
    /// The turn that it comes to on a queue of so many places.
    pub fn turn(self, size: u16, standing: &Standing) -> Turn
        ensures { result ≡ chosen size self standing.now }
    {
        match self {
            Choice::Only(turn) => turn,
            Choice::Any => any_turn(size, standing),
            Choice::Drain(accepted) => {
                if accepted < size {
                    any_turn(size, standing)
                } else {
                    draining_turn(size, standing)
                }
            }
        }
    }

    /// Whether it depends on how many requests wait, on a queue of so many places.
    pub fn may_fetch(self, size: u16) -> bool
        ensures only { (turn : Turn) → self ≡ Only turn → result ≡ false }
        ensures fixed { (s : Standing) (n : ℕ) → result ≡ false → chosen size self (record s { waiting = n }) ≡ chosen size self s }
    {
        match self {
            Choice::Only(_) => false,
            Choice::Any => true,
            Choice::Drain(accepted) => accepted < size,
        }
    }
}
