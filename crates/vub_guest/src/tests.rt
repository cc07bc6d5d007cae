use crate::Guest;
use std::test::Fail;
use vub_base::{Ask, CacheMode, Format, Header1, Shape, Space};

/// A queue of four places that begins at the last index.
const HEADER: Header1 = Header1 {
    format: Format::Split,
    queues: 1,
    size: 4,
    capacity: 8,
    base: 0xffff,
    mode: CacheMode::Back,
};

#[test]
fn one_request_waits_at_a_time(rt: HostRuntime) -> Result<(), Fail> {
    let header = HEADER;
    let space = Space { number: 0 };
    let mut guest = Guest::new(rt.alloc(), &header, 0, space)
        .ok()
        .ok_or("guest")?;
    assert!(rt; !guest.queue_request(Shape::Indirect, &Ask::Flush));
    assert!(rt; guest.queue_request(Shape::Direct, &Ask::Flush));
    assert!(rt; !guest.queue_request(Shape::Direct, &Ask::Flush));
    Ok(())
}
