ghost use Rattle.std.specs.Prelude.{◌≡◌, IfOk, MatchResult};
ghost use Rattle.vub_schedule.specs.Spelling.{IsSchedule};

use crate::writing::{put_ask, put_byte_pair, put_event, put_header, put_number, put_text};
use crate::{
    Event, Events, Schedule, ScheduleFault, one_first_bad_line, one_text_one_schedule,
    parse_schedule, write_schedule,
};
use arrayvec::ArrayVec;
use std::alloc::Global;
use std::test::Fail;
use vub_base::{Ask, CacheMode, Format, Header1, Part, Shape};

// What was written is parsed again as the same schedule.
fn parsed_again(alloc: Global, schedule: &Schedule) -> Result<Schedule, ScheduleFault>
    requires { IsSchedule schedule.now }
    ensures { MatchResult result (λ s. s ≡ schedule.now) (λ e. e ≡ ScheduleFault.Memory) }
{
    let text = write_schedule(alloc, schedule).map_err(|_| ScheduleFault::Memory)?;
    parse_schedule(alloc, &text)
}

// What was parsed is written as the same bytes.
fn written_again(alloc: Global, bytes: &[u8]) -> Result<Vec<u8>, ScheduleFault>
    ensures { IfOk result (λ text. text.items ≡ bytes.now) }
{
    match parse_schedule(alloc, bytes) {
        Ok(schedule) => write_schedule(alloc, &schedule).map_err(|_| ScheduleFault::Memory),
        Err(fault) => Err(fault),
    }
}

fn fault_of(alloc: Global, bytes: &[u8]) -> Option<ScheduleFault> {
    match parse_schedule(alloc, bytes) {
        Ok(_) => None,
        Err(fault) => Some(fault),
    }
}

const EVERY_EVENT: &[u8] = b"vub 1 split 1 4 8 0 back
boot
join
start 0
ask 0 d write 6 aa,0f
ask 0 d read 0 8
ask 0 d flush
guest 0 65535
fetch 0
work 0 63
publish 0 64
turn 0 1
drain 0
collect 0
kill
";

// The longest requests and the least and largest numbers.
const ENDS: &[u8] = b"vub 1 split 1 4 8 65535 back
ask 0 d write 0 00,11,22,33,44,55,66,77
ask 0 d write 7 99
ask 0 d read 7 1
guest 0 1
work 0 0
publish 0 1
turn 0 65535
";

const PLAIN: Header1 = Header1 {
    format: Format::Split,
    queues: 1,
    size: 4,
    capacity: 8,
    base: 0,
    mode: CacheMode::Back,
};

fn write_of(sector: u64, first: u8, second: u8) -> Ask {
    let mut fills = ArrayVec::new();
    fills.push(first);
    fills.push(second);
    Ask::Write { sector, fills }
}

#[test]
fn a_text_is_parsed_and_written(rt: HostRuntime) -> Result<(), Fail> {
    let schedule = parse_schedule(rt.alloc(), EVERY_EVENT)
        .ok()
        .ok_or("parsed")?;
    let read = Ask::Read {
        sector: 0,
        count: 8,
    };
    let events = [
        Event::Boot,
        Event::Join,
        Event::Start(0),
        Event::Ask(0, Shape::Direct, write_of(6, 0xaa, 0x0f)),
        Event::Ask(0, Shape::Direct, read),
        Event::Ask(0, Shape::Direct, Ask::Flush),
        Event::Guest(0, 65_535),
        Event::Fetch(0),
        Event::Work(0, 63),
        Event::Publish(0, 64),
        Event::Turn(0, 1),
        Event::Drain(0),
        Event::Collect(0),
        Event::Kill,
    ];
    assert_eq!(rt; schedule.header, PLAIN);
    assert_eq!(rt; schedule.events.items(), events.as_slice());
    for text in [EVERY_EVENT, ENDS] {
        let again = written_again(rt.alloc(), text).ok().ok_or("written")?;
        assert_eq!(rt; again.as_slice(), text);
    }
    Ok(())
}

#[test]
fn a_schedule_is_written_and_parsed(rt: HostRuntime) -> Result<(), Fail> {
    let event = Event::Ask(0, Shape::Direct, write_of(6, 0xc0, 0x0f));
    let copy = event.copy().ok().ok_or("copied")?;
    let events = Events::new(vec![in rt.alloc(); copy, Event::Drain(0)]?);
    let schedule = Schedule {
        header: PLAIN,
        events,
    };
    let text = write_schedule(rt.alloc(), &schedule).ok().ok_or("written")?;
    let wanted = b"vub 1 split 1 4 8 0 back\nask 0 d write 6 c0,0f\ndrain 0\n";
    assert_eq!(rt; text.as_slice(), wanted.as_slice());
    let again = parse_schedule(rt.alloc(), &text).ok().ok_or("parsed")?;
    assert_eq!(rt; again.events.items(), schedule.events.items());
    one_text_one_schedule();
    one_first_bad_line();
    Ok(())
}

#[test]
fn every_event_and_request_has_a_text(rt: HostRuntime) -> Result<(), Fail> {
    let mut fills = ArrayVec::new();
    fills.push(0);
    fills.push(0xff);
    let mut parts = ArrayVec::new();
    parts.push(Part {
        sector: 9_223_372_036_854_775_807,
        count: 10,
        flags: 0,
    });
    parts.push(Part {
        sector: 0,
        count: 4_294_967_295,
        flags: 1,
    });
    let mut out = Vec::new(rt.alloc());
    for event in [
        Event::Ask(3, Shape::Indirect, Ask::Write { sector: 100, fills }),
        Event::Ask(0, Shape::Indirect, Ask::Zero(parts.clone()?)),
        Event::Ask(
            0,
            Shape::Direct,
            Ask::Read {
                sector: 5,
                count: 8,
            },
        ),
        Event::Guest(1, 65_535),
        Event::Collect(2),
        Event::Join,
    ] {
        put_event(&mut out, &event).ok().ok_or("event")?;
    }
    for ask in [Ask::Flush, Ask::Id, Ask::Discard(parts)] {
        put_ask(&mut out, &ask).ok().ok_or("ask")?;
        put_text(&mut out, b";").ok().ok_or("text")?;
    }
    put_number(&mut out, 1_234_567).ok().ok_or("number")?;
    put_byte_pair(&mut out, 0xc0).ok().ok_or("pair")?;
    let header = Header1 {
        format: Format::Packed,
        queues: 4,
        size: 64,
        capacity: 4096,
        base: 0,
        mode: CacheMode::ReadOnly,
    };
    put_header(&mut out, b"record 1 ", &header)
        .ok()
        .ok_or("header")?;
    let wanted = b"ask 3 i write 100 00,ff
ask 0 i zero 9223372036854775807:10:0,0:4294967295:1
ask 0 d read 5 8
guest 1 65535
collect 2
join
flush;id;discard 9223372036854775807:10:0,0:4294967295:1;1234567c0record 1 packed 4 64 4096 0 ro
";
    assert_eq!(rt; out.as_slice(), wanted.as_slice());
    Ok(())
}

// Texts outside the grammar, with the number of the first line that is.
const MALFORMED: [(&[u8], u64); 68] = [
    (b"", 1),
    (b"\n", 1),
    (b"vub 1 split 1 4 8 0 back", 1),
    (b"vub 1 split 1 4 8 0 back \n", 1),
    (b"vub 1 split 1 4 8 0 back\r\n", 1),
    (b" vub 1 split 1 4 8 0 back\n", 1),
    (b"vub  1 split 1 4 8 0 back\n", 1),
    (b"Vub 1 split 1 4 8 0 back\n", 1),
    (b"vub 2 split 1 4 8 0 back\n", 1),
    (b"vub 1 packed 1 4 8 0 back\n", 1),
    (b"vub 1 split 2 4 8 0 back\n", 1),
    (b"vub 1 split 1 3 8 0 back\n", 1),
    (b"vub 1 split 1 128 8 0 back\n", 1),
    (b"vub 1 split 1 04 8 0 back\n", 1),
    (b"vub 1 split 1 4 0 0 back\n", 1),
    (b"vub 1 split 1 4 4097 0 back\n", 1),
    (b"vub 1 split 1 4 18446744073709551617 0 back\n", 1),
    (b"vub 1 split 1 4 8 65536 back\n", 1),
    (b"vub 1 split 1 4 8 01 back\n", 1),
    (b"vub 1 split 1 4 8 0 ro\n", 1),
    (b"vub 1 split 1 4 8 0\n", 1),
    (b"boot\n", 1),
    (b"vub 1 split 1 4 8 0 back\n\n", 2),
    (b"vub 1 split 1 4 8 0 back\nboot", 2),
    (b"vub 1 split 1 4 8 0 back\nboot \n", 2),
    (b"vub 1 split 1 4 8 0 back\nboot\r\n", 2),
    (b"vub 1 split 1 4 8 0 back\nBoot\n", 2),
    (b"vub 1 split 1 4 8 0 back\nboot\0\n", 2),
    (b"vub 1 split 1 4 8 0 back\nboot\xff\n", 2),
    (b"vub 1 split 1 4 8 0 back\n\xff\n", 2),
    (b"vub 1 split 1 4 8 0 back\nboot\nboot\n\nboot\n", 4),
    (b"vub 1 split 1 4 8 0 back\nboot\nkill\nkill 0\n", 4),
    (b"vub 1 split 1 4 8 0 back\njoin\nfetchh 0\n", 3),
    (b"vub 1 split 1 4 8 0 back\ncollect 1\n", 2),
    (b"vub 1 split 1 4 8 0 back\ncollect 00\n", 2),
    (b"vub 1 split 1 4 8 0 back\ndrain\n", 2),
    (b"vub 1 split 1 4 8 0 back\ndrain  0\n", 2),
    (b"vub 1 split 1 4 8 0 back\nstart 1\n", 2),
    (b"vub 1 split 1 4 8 0 back\nguest 0 0\n", 2),
    (b"vub 1 split 1 4 8 0 back\nguest 0 016\n", 2),
    (b"vub 1 split 1 4 8 0 back\nguest 0 65536\n", 2),
    (b"vub 1 split 1 4 8 0 back\nwork 0 64\n", 2),
    (b"vub 1 split 1 4 8 0 back\nwork 0 00\n", 2),
    (b"vub 1 split 1 4 8 0 back\npublish 0 0\n", 2),
    (b"vub 1 split 1 4 8 0 back\npublish 0 65\n", 2),
    (b"vub 1 split 1 4 8 0 back\nturn 0 0\n", 2),
    (b"vub 1 split 1 4 8 0 back\nturn 0 65536\n", 2),
    (b"vub 1 split 1 4 8 0 back\nask 0 d flush 0\n", 2),
    (b"vub 1 split 1 4 8 0 back\nask 0 d read 0 0\n", 2),
    (b"vub 1 split 1 4 4096 0 back\nask 0 d read 0 9\n", 2),
    (b"vub 1 split 1 4 8 0 back\nboot\nask 0 d read 8 1\n", 3),
    (b"vub 1 split 1 4 8 0 back\nask 0 d read 07 1\n", 2),
    (b"vub 1 split 1 4 8 0 back\nask 0 d read 7 2\n", 2),
    (
        b"vub 1 split 1 4 8 0 back\nask 0 d read 18446744073709551616 1\n",
        2,
    ),
    (b"vub 1 split 1 4 8 0 back\nask 0 d read  1\n", 2),
    (b"vub 1 split 1 4 8 0 back\nask 0 d write 8 aa\n", 2),
    (b"vub 1 split 1 4 8 0 back\nask 0 d write 7 AA\n", 2),
    (b"vub 1 split 1 4 8 0 back\nask 0 d write 7 a\n", 2),
    (b"vub 1 split 1 4 8 0 back\nask 0 d write 7 aaa\n", 2),
    (b"vub 1 split 1 4 8 0 back\nask 0 d write 7 aa,aa\n", 2),
    (b"vub 1 split 1 4 8 0 back\nask 0 d write 7 ag\n", 2),
    (b"vub 1 split 1 4 8 0 back\nask 0 d write 0 aa,\n", 2),
    (
        b"vub 1 split 1 4 4096 0 back\nask 0 d write 0 00,11,22,33,44,55,66,77,88\n",
        2,
    ),
    (b"vub 1 split 1 4 8 0 back\nask 0 d write 7\n", 2),
    (b"vub 1 split 1 4 8 0 back\nask 0 i write 7 aa\n", 2),
    (b"vub 1 split 1 4 8 0 back\nask 1 d write 7 aa\n", 2),
    (
        b"vub 1 split 1 4 8 0 back\nboot\nask 0 d write 7 aa\nboot\nx",
        5,
    ),
    (b"vub 1 split 1 4 8 0 back\nboot\n ", 3),
];

#[test]
fn the_first_bad_line_is_named(rt: HostRuntime) -> Result<(), Fail> {
    for (text, line) in &MALFORMED {
        let fault = fault_of(rt.alloc(), text);
        assert_eq!(rt; fault, Some(ScheduleFault::BadLine(*line)), "{text:?}");
    }
    Ok(())
}

#[test]
fn a_long_line_is_one_line(rt: HostRuntime) -> Result<(), Fail> {
    let mut text = Vec::from_slice(rt.alloc(), b"vub 1 split 1 4 8 0 back\nboot\n")?;
    for _ in 0..5_000 {
        text.push(b'9')?;
    }
    text.extend_from_slice(b"\nboot\nx\n")?;
    assert_eq!(rt;
        fault_of(rt.alloc(), &text),
        Some(ScheduleFault::BadLine(3))
    );
    Ok(())
}
