use crate::MemDisk;
use std::test::Fail;
use vub_disk::{Disk, NoDisk};

#[test]
fn sectors_are_written_and_read(rt: HostRuntime) -> Result<(), Fail> {
    let mut disk = MemDisk::new(rt.alloc(), 3).map_err(|_| "made")?;
    assert_eq!(rt; disk.capacity(), 3);
    let mut ones = [0u8; 512];
    ones[0] = 1;
    ones[511] = 2;
    assert!(rt; disk.write(1, &ones).is_ok());
    assert!(rt; disk.flush().is_ok());
    assert_eq!(rt; disk.sector(0)[0], 0);
    assert_eq!(rt; disk.sector(2)[511], 0);
    let mut read = [9u8; 512];
    assert!(rt; disk.read(1, &mut read).is_ok());
    assert_eq!(rt; (read[0], read[1], read[510], read[511]), (1, 0, 0, 2));
    Ok(())
}

#[test]
fn no_disk_has_no_sectors(rt: HostRuntime) {
    let mut disk = NoDisk;
    assert_eq!(rt; disk.capacity(), 0);
    assert!(rt; disk.flush().is_ok());
}
