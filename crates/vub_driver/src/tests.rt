use crate::{descriptors_needed, has_data};
use std::test::Fail;
use vub_base::Ask;

#[test]
fn a_flush_has_no_data(rt: HostRuntime) -> Result<(), Fail> {
    let read = Ask::Read {
        sector: 0,
        count: 1,
    };
    assert!(rt; has_data(&read));
    assert_eq!(rt; descriptors_needed(&read), 3);
    assert_eq!(rt; descriptors_needed(&Ask::Flush), 2);
    Ok(())
}
