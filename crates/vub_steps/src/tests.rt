use crate::{Choice, Phase, Standing, Step, Turn, after_running, is_ready, next_running};
use std::test::Fail;

const WAITING: Standing = Standing {
    started: true,
    phase: Phase::Rest,
    waiting: 1,
    counts: true,
    unfinished: 1,
    completed: 1,
};

#[test]
fn a_batch_of_one_is_published_in_eight_steps(rt: HostRuntime) -> Result<(), Fail> {
    let steps = [
        Step::Id(0),
        Step::Len(0),
        Step::Link(0),
        Step::Head(0),
        Step::Index,
        Step::Clear(0),
        Step::Note,
        Step::Bell,
    ];
    let mut phase = Phase::Publish(0);
    for step in steps {
        assert_eq!(rt; next_running(1, true, phase), Some(step));
        phase = after_running(1, true, phase);
    }
    assert_eq!(rt; phase, Phase::Rest);
    Ok(())
}

#[test]
fn a_request_is_fetched_in_two_steps(rt: HostRuntime) -> Result<(), Fail> {
    let first = Phase::Fetch(0);
    let second = after_running(0, true, first);
    assert_eq!(rt; next_running(0, true, first), Some(Step::Count));
    assert_eq!(rt; next_running(0, true, second), Some(Step::Accept));
    assert_eq!(rt; after_running(0, true, second), Phase::Rest);
    Ok(())
}

#[test]
fn a_fetch_comes_first_and_not_in_a_full_drain(rt: HostRuntime) -> Result<(), Fail> {
    assert!(rt; is_ready(&WAITING, Turn::Publish(1)));
    assert!(rt; !is_ready(&WAITING, Turn::Start));
    assert_eq!(rt; Choice::Any.turn(4, &WAITING), Turn::Fetch);
    assert_eq!(rt; Choice::Drain(4).turn(4, &WAITING), Turn::Work(0));
    Ok(())
}
