ghost use Rattle.std.specs.Prelude.{◌≡◌, ◌<◌, ◌^◌, ◌-◌, length, slice_get};
ghost use Rattle.vub_steps.specs.Steps.{fetch_steps, publish_steps, element_step, shown_step, running_steps, done_of, at_step, next_of, after_of};

/// What the device has under way on a queue, and how many of its steps were made.
#[derive(Clone, Copy, Debug, PartialEq, Eq)]
pub enum Phase {
    Rest,
    Start(u32),
    Fetch(u32),
    Publish(u32),
}

/// What a start found at its first step, and so which stores it makes.
#[derive(Clone, Copy, Debug, PartialEq, Eq)]
pub enum Plan {
    /// A region that was never made: it is initialised.
    New,
    /// A batch of so many entries that is in the used ring and not noted: they are cleared along
    /// their links, and used_idx is noted.
    Settles(u16),
    /// No store is left.
    Settled,
}

/// One step of a phase. The elements of a batch are counted from 0.
#[derive(Clone, Copy, Debug, PartialEq, Eq)]
pub enum Step {
    /// Stores the features of a new in-flight region.
    Features,
    /// Clears this entry of a new region.
    Free(u32),
    /// Stores the header of a new region.
    Open,
    /// Clears the entry in this place of the batch that is settled, along its links.
    Settle(u32),
    /// Notes used.idx in the region, with which that batch is settled.
    SettleEnd,
    /// Rings the bell of the queue. Makes no store.
    Bell,
    /// The queue is started. Makes no store.
    Start,
    /// Stores the counter of the entry whose request is fetched.
    Count,
    /// Stores that the entry is in flight, with which its request is accepted.
    Accept,
    /// Stores the id of an element in the used ring.
    Id(u32),
    /// Stores the length of an element in the used ring.
    Len(u32),
    /// Stores the link of an element: last_batch_head.
    Link(u32),
    /// Stores last_batch_head: the element.
    Head(u32),
    /// Stores used.idx, which shows the batch.
    Index,
    /// Clears the entry of an element.
    Clear(u32),
    /// Notes used.idx in the region.
    Note,
}

/// The next step of a fetch or a publication, of a queue that may have a bell and whose batch has so
/// many requests; none at rest and in a start.
pub fn next_running(batch: u16, bell: bool, phase: Phase) -> Option<Step>
    ensures { result ≡ next_of (running_steps batch bell phase) phase }
{
    match phase {
        Phase::Rest | Phase::Start(_) => None,
        Phase::Fetch(done) => fetch_step(done),
        Phase::Publish(done) => publish_step(u32::from(batch), bell, done),
    }
}

/// The step of a fetch after so many: the counter, and the acceptance.
fn fetch_step(done: u32) -> Option<Step>
    ensures { result ≡ slice_get fetch_steps done }
{
    match done {
        0 => Some(Step::Count),
        1 => Some(Step::Accept),
        _ => None,
    }
}

/// The step of a publication after so many: the four of each element, the index and what comes behind
/// it.
#[tactic(auto, using(crate::proofs::StepLemmas::in_element, crate::proofs::StepLemmas::past_elements))]
fn publish_step(elements: u32, bell: bool, done: u32) -> Option<Step>
    requires { elements < 2 ^ 16 }
    ensures { result ≡ slice_get (publish_steps elements bell) done }
{
    if done < 4 * elements {
        Some(element_step(done % 4, done / 4))
    } else {
        shown_step(elements, bell, done - 4 * elements)
    }
}

/// One of the four steps of an element.
fn element_step(place: u32, element: u32) -> Step
    ensures { result ≡ element_step place element }
{
    match place {
        0 => Step::Id(element),
        1 => Step::Len(element),
        2 => Step::Link(element),
        _ => Step::Head(element),
    }
}

/// The index, and what comes behind it: a clear for each element, the note, and the bell of a queue that
/// has one.
fn shown_step(elements: u32, bell: bool, place: u32) -> Option<Step>
    requires { elements < 2 ^ 16 }
    ensures { result ≡ shown_step elements bell place }
{
    if place == 0 {
        Some(Step::Index)
    } else if place <= elements {
        Some(Step::Clear(place - 1))
    } else if place == elements + 1 {
        Some(Step::Note)
    } else if bell && place == elements + 2 {
        Some(Step::Bell)
    } else {
        None
    }
}

/// How many steps of a phase were made.
fn done_of(phase: Phase) -> u32
    ensures { result ≡ done_of phase }
{
    match phase {
        Phase::Rest => 0,
        Phase::Start(done) | Phase::Fetch(done) | Phase::Publish(done) => done,
    }
}

/// The same phase with so many steps made.
fn at_step(phase: Phase, done: u32) -> Phase
    ensures { result ≡ at_step phase done }
{
    match phase {
        Phase::Rest => Phase::Rest,
        Phase::Start(_) => Phase::Start(done),
        Phase::Fetch(_) => Phase::Fetch(done),
        Phase::Publish(_) => Phase::Publish(done),
    }
}

/// How many steps of a fetch or a publication come after its first one.
#[tactic(auto, using(crate::proofs::StepLemmas::length_publish))]
fn later_steps(batch: u16, bell: bool, phase: Phase) -> u32
    ensures { result ≡ length (running_steps batch bell phase) - 1 }
{
    match phase {
        Phase::Rest | Phase::Start(_) => 0,
        Phase::Fetch(_) => 1,
        Phase::Publish(_) => 5 * u32::from(batch) + 1 + u32::from(bell),
    }
}

/// The phase after the next step of a fetch or a publication: at rest after the last one.
pub fn after_running(batch: u16, bell: bool, phase: Phase) -> Phase
    ensures { result ≡ after_of (running_steps batch bell phase) phase }
{
    let done = done_of(phase);
    if done < later_steps(batch, bell, phase) {
        at_step(phase, done + 1)
    } else {
        Phase::Rest
    }
}
