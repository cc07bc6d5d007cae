//! Tests of `run`.
ghost use Rattle.std.specs.Prelude.{◌<◌};

use crate::command::run;
use crate::no_bell::NoBell;
use std::alloc::Global;
use std::process::Abort;
use std::test::Fail;
use vub_base::{MemSink, MemSource};
use vub_disk::NoDisk;
use vub_shared::MemShared;

const HEADER: &str = "vub 1 split 1 4 8 0 back\n";

const WRITE_AND_READ: &str = "vub 1 split 1 4 8 0 back
boot
join
ask 0 d write 0 aa
guest 0 16
drain 0
collect 0
ask 0 d read 0 1
guest 0 16
drain 0
collect 0
";

const RECORDS: &str = "record 1 split 1 4 8 0 back
> boot
> join
> ask 0 d write 0 aa
> guest 0 16
. G m 10000 01000000000000000000000000000000
. G m 11000 aa*512
. G m 10010 ff
. G m 0 00000100000000001000000001000100
. G m 10 00100100000000000002000001000200
. G m 20 10000100000000000100000002000000
. G m 1004 0000
. G m 1002 0100
! offer 0 write 0 aa*512
> drain 0
. SI1 i 0 0000000000000000
. SI2 i 10 00
. SI2 i 20 00
. SI2 i 30 00
. SI2 i 40 00
. SI3 i 8 0100040000000000
+ bell 0
! start 0 -
. SF1 i 18 0000000000000000
. SF2 i 10 01
! accept 0 0
! act 0 0 0 aa*512
. T5 m 10010 00
. SP1 m 2004 00000000
. SP2 m 2008 01000000
. SP3 i 16 0000
. SP4 i c 0000
. SP5 m 2002 0100
! publish 0 0:0
. SP6 i 10 00
. SP7 i e 0100
+ bell 0
> collect 0
! collect 0 0
> ask 0 d read 0 1
> guest 0 16
. G m 10000 00*16
. G m 10010 ff
. G m 0 00000100000000001000000001000100
. G m 10 00100100000000000002000003000200
. G m 20 10000100000000000100000002000000
. G m 1006 0000
. G m 1002 0200
! offer 0 read 0 1
> drain 0
. SF1 i 18 0100000000000000
. SF2 i 10 01
! accept 0 1
! look 0 1 0 aa*512
. T2 m 11000 aa*512
. T5 m 10010 00
. SP1 m 200c 00000000
. SP2 m 2010 01020000
. SP3 i 16 0000
. SP4 i c 0000
. SP5 m 2002 0200
! publish 0 1:0:aa*512
. SP6 i 10 00
. SP7 i e 0200
+ bell 0
> collect 0
! collect 0 1
";

const HISTORY: &str = "offer 0 write 0 aa*512
start 0 -
accept 0 0
act 0 0 0 aa*512
publish 0 0:0
collect 0 0
offer 0 read 0 1
accept 0 1
look 0 1 0 aa*512
publish 0 1:0:aa*512
collect 0 1
";

const USAGE: &str =
    "usage: vublk replay|entries|bulk SEED COUNT|inspect FORMAT SIZE WORD|serve [--read-only] IMAGE NAME..\n";

/// The words between the spaces of a line; none for the empty line.
fn words_of(alloc: Global, line: &str) -> Result<Vec<String>, Fail> {
    let mut words = Vec::new(alloc);
    if !line.is_empty() {
        for word in line.split(' ') {
            words.push(String::from_str(alloc, word)?)?;
        }
    }
    Ok(words)
}

/// The one call that fails, if one is to fail.
fn fails_of(alloc: Global, call: Option<u64>) -> Result<Vec<u64>, Fail> {
    let mut fails = Vec::new(alloc);
    if let Some(call) = call {
        fails.push(call)?;
    }
    Ok(fails)
}

/// The status of a run and what the sink holds after it. The source gives at most `piece` bytes a
/// call.
fn run_on(
    alloc: Global,
    words: &[String],
    text: &str,
    piece: usize,
    source_fails: Vec<u64>,
    sink_fails: Vec<u64>,
) -> Result<(u8, Vec<u8>), Fail>
    requires { 0 < piece }
{
    let bytes = Vec::from_slice(alloc, text.as_bytes())?;
    let mut input = MemSource::new(bytes, piece, source_fails);
    let mut out = MemSink::new(alloc, 131_072, sink_fails)
        .ok()
        .ok_or("memory")?;
    let mut regions = MemShared::new(alloc, Vec::new(alloc));
    let status = run(
        alloc,
        words,
        &mut input,
        &mut out,
        &mut regions,
        &mut NoDisk,
        &mut NoBell,
    );
    Ok((status, Vec::from_slice(alloc, out.bytes())?))
}

/// One worked row, with what the source has given in pieces of at most so many bytes.
pub fn check_row_in_pieces(
    rt: &impl Abort,
    alloc: Global,
    words: &str,
    text: &str,
    piece: usize,
    faults: (Option<u64>, Option<u64>),
    wanted: (u8, &str),
) -> Result<(), Fail>
    requires { 0 < piece }
{
    let words = words_of(alloc, words)?;
    let source_fails = fails_of(alloc, faults.0)?;
    let sink_fails = fails_of(alloc, faults.1)?;
    let (status, out) = run_on(alloc, &words, text, piece, source_fails, sink_fails)?;
    assert_eq!(rt; status, wanted.0);
    assert_eq!(rt; out.as_slice(), wanted.1.as_bytes());
    Ok(())
}

/// One worked row, with what the source has given whole and in single bytes.
pub fn check_row(
    rt: &impl Abort,
    alloc: Global,
    words: &str,
    text: &str,
    faults: (Option<u64>, Option<u64>),
    wanted: (u8, &str),
) -> Result<(), Fail> {
    check_row_in_pieces(rt, alloc, words, text, 1, faults, wanted)?;
    check_row_in_pieces(rt, alloc, words, text, 65_536, faults, wanted)
}

#[test]
fn worked_rows(rt: HostRuntime) -> Result<(), Fail> {
    let whole = (None, None);
    let bad_word = "vub 1 split 1 4 8 0 back\nboot\njoin\nfetchh 0\nkill\n";
    let power = "vub 1 split 1 4 8 0 back\npower\n";
    let kill = "vub 1 split 1 4 8 9 back\nkill\n";
    let idle_kill = "record 1 split 1 4 8 9 back\n> kill\n- idle\n";
    for (text, status, out) in [
        (WRITE_AND_READ, 0, RECORDS),
        (HEADER, 0, "record 1 split 1 4 8 0 back\n"),
        (bad_word, 6, "bad line 4\n"),
        (power, 6, "bad line 2\n"),
        (kill, 0, idle_kill),
        ("", 6, "bad line 1\n"),
    ] {
        check_row(&rt, rt.alloc(), "replay", text, whole, (status, out))?;
    }
    let started = "vub 1 split 1 4 8 0 back\nboot\njoin\n";
    check_row(&rt, rt.alloc(), "replay", started, (Some(0), None), (4, ""))?;
    check_row(&rt, rt.alloc(), "replay", started, (None, Some(0)), (5, ""))?;
    Ok(())
}

/// A text, and so many lines after it.
fn repeated(alloc: Global, first: &str, line: &str, count: usize) -> Result<String, Fail> {
    let mut text = String::from_str(alloc, first)?;
    for _ in 0..count {
        text.push_str(line)?;
    }
    Ok(text)
}

/// The sink is called once for as many records as 65,536 bytes hold: 65,535 bytes here, and the next
/// record doesn't fit. It fails in mid-stream, at the second call.
#[test]
fn pieces(rt: HostRuntime) -> Result<(), Fail> {
    let start = "vub 1 split 1 4 8 0 back\nboot\njoin\n";
    let schedule = repeated(rt.alloc(), start, "collect 0\n", 3500)?;
    let first = "record 1 split 1 4 8 0 back\n> boot\n> join\n";
    let idle = "> collect 0\n- idle\n";
    let whole = repeated(rt.alloc(), first, idle, 3500)?;
    let front = repeated(rt.alloc(), first, idle, 3447)?;
    for (call, status, out) in [(None, 0, whole.as_str()), (Some(1), 5, front.as_str())] {
        check_row(
            &rt,
            rt.alloc(),
            "replay",
            &schedule,
            (None, call),
            (status, out),
        )?;
    }
    Ok(())
}

#[test]
fn histories(rt: HostRuntime) -> Result<(), Fail> {
    let whole = (None, None);
    let power = "vub 1 split 1 4 8 0 back\npower\n";
    for (text, status, out) in [
        (WRITE_AND_READ, 0, HISTORY),
        (HEADER, 0, ""),
        (power, 6, "bad line 2\n"),
    ] {
        check_row(&rt, rt.alloc(), "entries", text, whole, (status, out))?;
    }
    check_row(
        &rt,
        rt.alloc(),
        "entries",
        WRITE_AND_READ,
        (None, Some(0)),
        (5, ""),
    )
}

#[test]
fn refused_words(rt: HostRuntime) -> Result<(), Fail> {
    for words in [
        "",
        "replay now",
        "replay entries",
        "--help",
        "entries ",
        "Replay",
    ] {
        check_row(&rt, rt.alloc(), words, HEADER, (None, None), (2, USAGE))?;
    }
    Ok(())
}
