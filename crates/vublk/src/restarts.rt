//! Tests of `run`: a life that is killed in a chosen step of its own, or of a start, and what the next
//! lives make of it.

use crate::interleavings::check_history;
use std::test::Fail;

/// The size of the queue, the base of its rings, the events and the entries, as the interleavings have
/// them. A first start of a queue of four places takes 8 turns, two fetches 4, the work on two flushes
/// 4, and a publication of two requests 13, of which the ninth shows it.
type Row = (&'static str, &'static str, &'static str, &'static str);

const ROWS: [Row; 6] = [
    // After used.idx, and before the first entry is cleared.
    (
        "4",
        "0",
        "boot;join;flush;flush;turn 0 25;kill;boot;join;drain 0;collect 0;collect 0",
        "offer 0 flush;offer 0 flush;start 0 -;accept 0 0;accept 0 1;sync 0 0;sync 0 1;\
         publish 0 0:0,1:0;kill;start 0 -;collect 0 0;collect 0 1",
    ),
    // A step later, and again in the start that follows.
    (
        "4",
        "0",
        "boot;join;flush;flush;turn 0 26;kill;boot;join;turn 0 1;kill;boot;join;drain 0;\
         collect 0;collect 0",
        "offer 0 flush;offer 0 flush;start 0 -;accept 0 0;accept 0 1;sync 0 0;sync 0 1;\
         publish 0 0:0,1:0;kill;kill;start 0 -;collect 0 0;collect 0 1",
    ),
    // Between the counter of an entry and that it is in flight.
    (
        "4",
        "0",
        "boot;join;flush;turn 0 9;kill;boot;join;drain 0",
        "offer 0 flush;start 0 -;kill;start 0 -;accept 0 0;sync 0 0;publish 0 0:0",
    ),
    // Before used.idx. The next life publishes in the other order, so that the entry which was last
    // batch head is linked to itself, and is killed before that batch is noted.
    (
        "4",
        "0",
        "boot;join;flush;flush;turn 0 24;kill;boot;join;turn 0 2;work 0 1;work 0 1;work 0 0;\
         work 0 0;turn 0 9;kill;boot;join;drain 0;collect 0;collect 0",
        "offer 0 flush;offer 0 flush;start 0 -;accept 0 0;accept 0 1;sync 0 0;sync 0 1;kill;\
         start 0 0,1;sync 0 1;sync 0 0;publish 0 1:0,0:0;kill;start 0 -;collect 0 1;collect 0 0",
    ),
    // The first of these at the end of the indexes: used.idx goes from 65535 to 1.
    (
        "4",
        "65535",
        "boot;join;flush;flush;turn 0 25;kill;boot;join;drain 0;collect 0;collect 0",
        "offer 0 flush;offer 0 flush;start 0 -;accept 0 0;accept 0 1;sync 0 0;sync 0 1;\
         publish 0 0:0,1:0;kill;start 0 -;collect 0 0;collect 0 1",
    ),
    // A write that acted before the kill acts again, after a later write of the same sector.
    (
        "8",
        "0",
        "boot;join;write 0 aa;write 0 bb;turn 0 16;work 0 0;kill;boot;join;turn 0 2;work 0 1;\
         work 0 1;whole 1;drain 0;collect 0;collect 0;ask 0 d read 0 1;guest 0 16;drain 0",
        "offer 0 write 0 aa*512;offer 0 write 0 bb*512;start 0 -;accept 0 0;accept 0 1;\
         act 0 0 0 aa*512;kill;start 0 0,1;act 0 1 0 bb*512;publish 0 1:0;act 0 0 0 aa*512;\
         publish 0 0:0;collect 0 1;collect 0 0;offer 0 read 0 1;accept 0 2;look 0 2 0 aa*512;\
         publish 0 2:0:aa*512",
    ),
];

#[test]
fn restarts(rt: HostRuntime) -> Result<(), Fail> {
    for (size, base, events, history) in ROWS {
        check_history(&rt, rt.alloc(), size, base, events, history)?;
    }
    Ok(())
}
