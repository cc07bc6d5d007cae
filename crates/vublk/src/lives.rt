//! Tests of `run`: three requests in two batches, with a kill after every step of the first life and
//! another after every step of the start that follows, each with the history that the definitions give.

use crate::tests::check_row_in_pieces;
use std::alloc::Global;
use std::test::Fail;

/// The third request is offered after so many steps of the first life, in the middle of the first
/// publication.
const THIRD: u16 = 21;

/// The entries of the first life but the offers, and after which of its 45 steps each stands: 12 steps
/// of a start (a region of eight entries, the bell and the end), two for each of two fetches, two for
/// each of two requests, 13 for the batch of both, and then two, two and eight for the third.
const FIRST_LIFE: [(u16, &str); 9] = [
    (12, "start 0 -\n"),
    (14, "accept 0 0\n"),
    (16, "accept 0 1\n"),
    (17, "act 0 0 0 aa*512\n"),
    (19, "sync 0 1\n"),
    (29, "publish 0 0:0,1:0\n"),
    (35, "accept 0 2\n"),
    (36, "act 0 2 1 bb*512\n"),
    (42, "publish 0 2:0\n"),
];

/// What a kill leaves.
struct Cut {
    /// The first and the last step of the first life after which it leaves this.
    steps: (u16, u16),
    /// How many steps the next start has.
    start: u16,
    /// The requests that are open, which each start lists.
    open: &'static str,
    /// What the last life makes after its start.
    rest: &'static str,
}

const CUTS: [Cut; 9] = [
    // The region isn't made.
    Cut {
        steps: (0, 9),
        start: 12,
        open: "-",
        rest: "accept 0 0\naccept 0 1\naccept 0 2\nact 0 0 0 aa*512\nsync 0 1\nact 0 2 1 bb*512\n\
               publish 0 0:0,1:0,2:0\n",
    },
    // It is, and nothing is accepted.
    Cut {
        steps: (10, 13),
        start: 2,
        open: "-",
        rest: "accept 0 0\naccept 0 1\naccept 0 2\nact 0 0 0 aa*512\nsync 0 1\nact 0 2 1 bb*512\n\
               publish 0 0:0,1:0,2:0\n",
    },
    Cut {
        steps: (14, 15),
        start: 2,
        open: "0",
        rest: "accept 0 1\naccept 0 2\nact 0 0 0 aa*512\nsync 0 1\nact 0 2 1 bb*512\n\
               publish 0 0:0,1:0,2:0\n",
    },
    // Both are accepted, until used.idx is stored.
    Cut {
        steps: (16, 28),
        start: 2,
        open: "0,1",
        rest: "accept 0 2\nact 0 0 0 aa*512\nsync 0 1\nact 0 2 1 bb*512\npublish 0 0:0,1:0,2:0\n",
    },
    // The batch is shown and not noted: a start clears its two entries and notes it.
    Cut {
        steps: (29, 31),
        start: 5,
        open: "-",
        rest: "accept 0 2\nact 0 2 1 bb*512\npublish 0 2:0\n",
    },
    Cut {
        steps: (32, 34),
        start: 2,
        open: "-",
        rest: "accept 0 2\nact 0 2 1 bb*512\npublish 0 2:0\n",
    },
    Cut {
        steps: (35, 41),
        start: 2,
        open: "2",
        rest: "act 0 2 1 bb*512\npublish 0 2:0\n",
    },
    // All are answered.
    Cut {
        steps: (42, 43),
        start: 4,
        open: "-",
        rest: "",
    },
    Cut {
        steps: (44, 45),
        start: 2,
        open: "-",
        rest: "",
    },
];

/// Appends so many turns, if there are any.
fn put_turns(alloc: Global, text: &mut String, turns: u16) -> Result<(), Fail> {
    if turns > 0 {
        let line = format!(in alloc; "turn 0 {turns}\n")?;
        text.push_str(&line)?;
    }
    Ok(())
}

/// The schedule that is cut after so many steps of the first life and of the start after it.
fn schedule_of(alloc: Global, step: u16, again: u16) -> Result<String, Fail> {
    let mut text = String::from_str(
        alloc,
        "vub 1 split 1 8 8 0 back\nboot\njoin\nask 0 d write 0 aa\nguest 0 16\nask 0 d flush\n\
         guest 0 16\n",
    )?;
    put_turns(alloc, &mut text, step.min(THIRD))?;
    text.push_str("ask 0 d write 1 bb\nguest 0 16\n")?;
    put_turns(alloc, &mut text, step.saturating_sub(THIRD))?;
    text.push_str("kill\nboot\njoin\n")?;
    put_turns(alloc, &mut text, again)?;
    text.push_str("kill\nboot\njoin\ndrain 0\ncollect 0\ncollect 0\ncollect 0\n")?;
    Ok(text)
}

/// Appends the entries of the first life that stand after one of these steps.
fn put_first_life(text: &mut String, after: u16, last: u16) -> Result<(), Fail> {
    for (step, entry) in FIRST_LIFE {
        if after < step && step <= last {
            text.push_str(entry)?;
        }
    }
    Ok(())
}

/// Appends the entry of a start.
fn put_start(text: &mut String, open: &str) -> Result<(), Fail> {
    text.push_str("start 0 ")?;
    text.push_str(open)?;
    text.push_str("\n")?;
    Ok(())
}

/// Its history.
fn history_of(alloc: Global, cut: &Cut, step: u16, again: u16) -> Result<String, Fail> {
    let mut text = String::from_str(alloc, "offer 0 write 0 aa*512\noffer 0 flush\n")?;
    put_first_life(&mut text, 0, step.min(THIRD))?;
    text.push_str("offer 0 write 1 bb*512\n")?;
    put_first_life(&mut text, THIRD, step)?;
    text.push_str("kill\n")?;
    if again == cut.start {
        put_start(&mut text, cut.open)?;
    }
    text.push_str("kill\n")?;
    put_start(&mut text, cut.open)?;
    text.push_str(cut.rest)?;
    text.push_str("collect 0 0\ncollect 0 1\ncollect 0 2\n")?;
    Ok(text)
}

#[test]
fn kills_at_every_step(rt: HostRuntime) -> Result<(), Fail> {
    for cut in &CUTS {
        for step in cut.steps.0..=cut.steps.1 {
            for again in 0..=cut.start {
                let text = schedule_of(rt.alloc(), step, again)?;
                let wanted = history_of(rt.alloc(), cut, step, again)?;
                check_row_in_pieces(
                    &rt,
                    rt.alloc(),
                    "entries",
                    &text,
                    65_536,
                    (None, None),
                    (0, &wanted),
                )?;
            }
        }
    }
    Ok(())
}
