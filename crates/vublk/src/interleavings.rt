//! Tests of `run`: schedules in which guest and device take turns at single steps, each with the
//! history that the standard's rules give it. A queue of eight places has room for four flushes,
//! which take two descriptors each, or two reads and a flush; one of four for two flushes.

use crate::tests::check_row;
use std::alloc::Global;
use std::process::Abort;
use std::test::Fail;

/// The size of the queue, the events and the entries, with `;` between them. Beside events there stand
/// `setup` for `boot`, `join` and as many `start 0` as the start of a queue of eight places takes, and
/// `flush` and `write S VV` for such a request with all stores of the driver, `take` for a fetch that
/// takes a request, and `whole M` for the publication of M requests. A start takes a turn for each
/// place and four more; a fetch takes two, which store the entry's counter and that it is in flight;
/// a publication takes four for each request, one for the used index, one more for each request, one
/// for the noted index and one for the bell.
type Row = (&'static str, &'static str, &'static str);

const ROWS: [Row; 28] = [
    // The worked row: a read overtakes a write, and both are published in one batch.
    (
        "8",
        "setup;write 0 aa;ask 0 d read 0 1;guest 0 16;take;take;work 0 1;work 0 1;work 0 1;\
         work 0 0;work 0 0;whole 2;collect 0;collect 0",
        "start 0 -;offer 0 write 0 aa*512;offer 0 read 0 1;accept 0 0;accept 0 1;\
         look 0 1 0 00*512;act 0 0 0 aa*512;publish 0 1:0:00*512,0:0;collect 0 1;collect 0 0",
    ),
    // What is completed out of order is published in the order of completion.
    (
        "4",
        "setup;flush;flush;take;take;work 0 1;work 0 1;work 0 0;work 0 0;whole 2",
        "start 0 -;offer 0 flush;offer 0 flush;accept 0 0;accept 0 1;sync 0 1;sync 0 0;\
         publish 0 1:0,0:0",
    ),
    // A publication in the middle of a guest's stores, of which the eighth offers.
    (
        "8",
        "setup;flush;take;work 0 0;work 0 0;ask 0 d write 0 aa;guest 0 4;publish 0 1;publish 0 1;\
         publish 0 1;publish 0 1;guest 0 3;fetch 0;publish 0 1;publish 0 1;publish 0 1;\
         publish 0 1;fetch 0;guest 0 1;take;collect 0",
        "start 0 -;offer 0 flush;accept 0 0;sync 0 0;publish 0 0:0;offer 0 write 0 aa*512;\
         accept 0 1;collect 0 0",
    ),
    // Turns before the start, and with nothing to do.
    (
        "4",
        "boot;join;fetch 0;work 0 0;publish 0 1;start 0;start 0;fetch 0;work 0 0;publish 0 1;\
         turn 0 3;drain 0",
        "start 0 -",
    ),
    // Turns before a life, and before the queue is attached.
    (
        "4",
        "fetch 0;start 0;turn 0 5;drain 0;boot;start 0;turn 0 1;join;turn 0 8",
        "start 0 -",
    ),
    // A collect finds nothing until the index of the used ring is stored.
    (
        "4",
        "setup;flush;collect 0;take;work 0 0;work 0 0;collect 0;publish 0 1;publish 0 1;\
         publish 0 1;publish 0 1;collect 0;publish 0 1;publish 0 1;publish 0 1;publish 0 1;\
         collect 0;collect 0",
        "start 0 -;offer 0 flush;accept 0 0;sync 0 0;publish 0 0:0;collect 0 0",
    ),
    // A batch cut by events of the guest; a fetch isn't ready before its end.
    (
        "8",
        "setup;flush;flush;take;take;work 0 0;work 0 0;work 0 0;work 0 0;publish 0 2;publish 0 2;\
         publish 0 2;publish 0 2;ask 0 d flush;guest 0 5;fetch 0;publish 0 2;guest 0 1;fetch 0;\
         publish 0 2;publish 0 2;publish 0 2;collect 0;publish 0 2;publish 0 2;publish 0 2;\
         publish 0 2;publish 0 2;take",
        "start 0 -;offer 0 flush;offer 0 flush;accept 0 0;accept 0 1;sync 0 0;sync 0 1;\
         offer 0 flush;publish 0 0:0,1:0;accept 0 2",
    ),
    // How many to publish at most counts where a batch begins.
    (
        "4",
        "setup;flush;flush;take;take;work 0 0;work 0 0;work 0 0;work 0 0;publish 0 1;\
         publish 0 64;publish 0 64;publish 0 64;publish 0 64;publish 0 64;publish 0 64;\
         publish 0 64;publish 0 64;publish 0 1;publish 0 1;publish 0 1;publish 0 1;publish 0 1;\
         publish 0 1;publish 0 1",
        "start 0 -;offer 0 flush;offer 0 flush;accept 0 0;accept 0 1;sync 0 0;sync 0 1;\
         publish 0 0:0;publish 0 1:0",
    ),
    // A request that is completed while a batch is published is in the next one.
    (
        "4",
        "setup;flush;flush;take;take;work 0 0;work 0 0;publish 0 64;work 0 0;work 0 0;\
         publish 0 64;publish 0 64;publish 0 64;publish 0 64;publish 0 64;publish 0 64;\
         publish 0 64;whole 1",
        "start 0 -;offer 0 flush;offer 0 flush;accept 0 0;accept 0 1;sync 0 0;sync 0 1;\
         publish 0 0:0;publish 0 1:0",
    ),
    // Only the sixth store of a flush offers it.
    (
        "4",
        "setup;ask 0 d flush;guest 0 1;fetch 0;guest 0 1;guest 0 1;guest 0 1;guest 0 1;fetch 0;\
         turn 0 9;guest 0 1;guest 0 1;take",
        "start 0 -;offer 0 flush;accept 0 0",
    ),
    // A request can't be asked for while one waits; all turns up to the end.
    (
        "4",
        "boot;join;ask 0 d flush;ask 0 d flush;guest 0 16;guest 0 16;turn 0 22;turn 0 1",
        "offer 0 flush;start 0 -;accept 0 0;sync 0 0;publish 0 0:0",
    ),
    // So many turns and no more; a fetch comes before work.
    (
        "4",
        "boot;join;flush;turn 0 10;flush;turn 0 2;turn 0 2;turn 0 1",
        "offer 0 flush;start 0 -;accept 0 0;offer 0 flush;accept 0 1;sync 0 0;sync 0 1",
    ),
    // A publication under way comes before a fetch.
    (
        "4",
        "boot;join;flush;turn 0 13;flush;turn 0 7;turn 0 2",
        "offer 0 flush;start 0 -;accept 0 0;sync 0 0;offer 0 flush;publish 0 0:0;accept 0 1",
    ),
    // No more is fetched than is offered.
    (
        "4",
        "setup;fetch 0;flush;take;fetch 0;fetch 0;drain 0;fetch 0",
        "start 0 -;offer 0 flush;accept 0 0;sync 0 0;publish 0 0:0",
    ),
    // No work past the last request.
    (
        "4",
        "setup;flush;take;work 0 1;work 0 63;work 0 0;work 0 1;work 0 0;work 0 0",
        "start 0 -;offer 0 flush;accept 0 0;sync 0 0",
    ),
    // Three sectors are written and read in one request each.
    (
        "4",
        "setup;write 5 01,02,03;drain 0;collect 0;ask 0 d read 5 3;guest 0 16;turn 0 99",
        "start 0 -;offer 0 write 5 01*512,02*512,03*512;accept 0 0;act 0 0 5 01*512;\
         act 0 0 6 02*512;act 0 0 7 03*512;publish 0 0:0;collect 0 0;offer 0 read 5 3;accept 0 1;\
         look 0 1 5 01*512;look 0 1 6 02*512;look 0 1 7 03*512;publish 0 1:0:01*512+02*512+03*512",
    ),
    // A read after a write that acted and isn't published.
    (
        "8",
        "setup;write 0 aa;ask 0 d read 0 1;guest 0 16;take;take;work 0 0;work 0 1;work 0 1;\
         work 0 1;whole 1;work 0 0;whole 1",
        "start 0 -;offer 0 write 0 aa*512;offer 0 read 0 1;accept 0 0;accept 0 1;\
         act 0 0 0 aa*512;look 0 1 0 aa*512;publish 0 1:0:aa*512;publish 0 0:0",
    ),
    // Of two writes the older acts last.
    (
        "8",
        "setup;write 0 aa;write 0 bb;take;take;work 0 1;work 0 1;work 0 0;work 0 0;drain 0;\
         collect 0;collect 0;ask 0 d read 0 1;guest 0 16;drain 0",
        "start 0 -;offer 0 write 0 aa*512;offer 0 write 0 bb*512;accept 0 0;accept 0 1;\
         act 0 1 0 bb*512;act 0 0 0 aa*512;publish 0 1:0,0:0;collect 0 1;collect 0 0;\
         offer 0 read 0 1;accept 0 2;look 0 2 0 aa*512;publish 0 2:0:aa*512",
    ),
    // A write between the two looks of a read.
    (
        "8",
        "setup;ask 0 d read 0 2;guest 0 16;write 1 cc;take;take;work 0 0;work 0 1;work 0 0;\
         work 0 0;work 0 0;work 0 0;whole 1",
        "start 0 -;offer 0 read 0 2;offer 0 write 1 cc*512;accept 0 0;accept 0 1;\
         look 0 0 0 00*512;act 0 1 1 cc*512;look 0 0 1 cc*512;publish 0 0:0:00*512+cc*512",
    ),
    // Descriptors are free again once their request is collected.
    (
        "2",
        "boot;join;flush;flush;drain 0;flush;collect 0;flush;drain 0;collect 0",
        "offer 0 flush;start 0 -;accept 0 0;sync 0 0;publish 0 0:0;collect 0 0;offer 0 flush;\
         accept 0 1;sync 0 1;publish 0 1:0;collect 0 1",
    ),
    // A read takes three descriptors, of which a queue of two places has too few.
    (
        "2",
        "setup;ask 0 d read 0 1;guest 0 16;drain 0",
        "start 0 -",
    ),
    // Requests that were offered before the start, and in the middle of it.
    (
        "4",
        "flush;boot;join;fetch 0;start 0;start 0;start 0;fetch 0;flush;start 0;start 0;start 0;\
         start 0;fetch 0;start 0;take;take;fetch 0",
        "offer 0 flush;offer 0 flush;start 0 -;accept 0 0;accept 0 1",
    ),
    // A drain ends what turns began, and leaves a request that isn't offered.
    (
        "4",
        "boot;join;flush;turn 0 11;ask 0 d flush;guest 0 3;drain 0;guest 0 16;drain 0",
        "offer 0 flush;start 0 -;accept 0 0;sync 0 0;publish 0 0:0;offer 0 flush;accept 0 1;\
         sync 0 1;publish 0 1:0",
    ),
    // All turns of a life at once.
    (
        "4",
        "ask 0 d flush;guest 0 65535;boot;join;turn 0 65535;collect 0;turn 0 65535",
        "offer 0 flush;start 0 -;accept 0 0;sync 0 0;publish 0 0:0;collect 0 0",
    ),
    // Two of three completed requests in a batch, in the order of completion.
    (
        "8",
        "setup;flush;flush;flush;take;take;take;work 0 2;work 0 2;work 0 0;work 0 0;work 0 0;\
         work 0 0;whole 2;publish 0 2;publish 0 2;publish 0 2;publish 0 2;publish 0 2;\
         publish 0 2;publish 0 2;publish 0 2",
        "start 0 -;offer 0 flush;offer 0 flush;offer 0 flush;accept 0 0;accept 0 1;accept 0 2;\
         sync 0 2;sync 0 0;sync 0 1;publish 0 2:0,0:0;publish 0 1:0",
    ),
    // Both rings are used again from their begin.
    (
        "2",
        "setup;flush;turn 0 15;collect 0;flush;turn 0 15;collect 0;flush;turn 0 15;collect 0",
        "start 0 -;offer 0 flush;accept 0 0;sync 0 0;publish 0 0:0;collect 0 0;offer 0 flush;\
         accept 0 1;sync 0 1;publish 0 1:0;collect 0 1;offer 0 flush;accept 0 2;sync 0 2;\
         publish 0 2:0;collect 0 2",
    ),
    // What isn't completed isn't published.
    (
        "4",
        "setup;flush;take;publish 0 1;work 0 0;publish 0 1;work 0 0;whole 1;publish 0 1",
        "start 0 -;offer 0 flush;accept 0 0;sync 0 0;publish 0 0:0",
    ),
    // A request asked for between two collections takes what the first one freed.
    (
        "4",
        "setup;flush;flush;drain 0;collect 0;ask 0 d flush;collect 0;guest 0 16;drain 0;collect 0",
        "start 0 -;offer 0 flush;offer 0 flush;accept 0 0;accept 0 1;sync 0 0;sync 0 1;\
         publish 0 0:0,1:0;collect 0 0;collect 0 1;offer 0 flush;accept 0 2;sync 0 2;\
         publish 0 2:0;collect 0 2",
    ),
];

/// Appends so many such lines.
fn put_lines(text: &mut String, line: &str, count: usize) -> Result<(), Fail> {
    for _ in 0..count {
        text.push_str(line)?;
    }
    Ok(())
}

/// Appends a part of a row as lines.
fn put_part(text: &mut String, part: &str) -> Result<(), Fail> {
    match part {
        "setup" => {
            text.push_str("boot\njoin\n")?;
            put_lines(text, "start 0\n", 12)?;
        }
        "take" => put_lines(text, "fetch 0\n", 2)?,
        "whole 1" => put_lines(text, "publish 0 1\n", 8)?,
        "whole 2" => put_lines(text, "publish 0 2\n", 13)?,
        "flush" => text.push_str("ask 0 d flush\nguest 0 16\n")?,
        _ if part.starts_with("write") => {
            text.push_str("ask 0 d ")?;
            text.push_str(part)?;
            text.push_str("\nguest 0 16\n")?;
        }
        _ => {
            text.push_str(part)?;
            text.push_str("\n")?;
        }
    }
    Ok(())
}

/// The schedule of these events on a queue of so many places, whose rings begin at this base.
fn schedule_of(alloc: Global, size: &str, base: &str, events: &str) -> Result<String, Fail> {
    let mut text = String::from_str(alloc, "vub 1 split 1 ")?;
    text.push_str(size)?;
    text.push_str(" 8 ")?;
    text.push_str(base)?;
    text.push_str(" back\n")?;
    for part in events.split(';') {
        put_part(&mut text, part)?;
    }
    Ok(text)
}

/// The entries of a row, a line for each.
fn history_of(alloc: Global, entries: &str) -> Result<String, Fail> {
    let mut text = String::new(alloc);
    for entry in entries.split(';') {
        text.push_str(entry)?;
        text.push_str("\n")?;
    }
    Ok(text)
}

/// One row: what `entries` answers of these events.
pub fn check_history(
    rt: &impl Abort,
    alloc: Global,
    size: &str,
    base: &str,
    events: &str,
    history: &str,
) -> Result<(), Fail> {
    let text = schedule_of(alloc, size, base, events)?;
    let wanted = history_of(alloc, history)?;
    check_row(rt, alloc, "entries", &text, (None, None), (0, &wanted))
}

#[test]
fn interleavings(rt: HostRuntime) -> Result<(), Fail> {
    for (size, events, history) in ROWS {
        check_history(&rt, rt.alloc(), size, "0", events, history)?;
    }
    Ok(())
}
