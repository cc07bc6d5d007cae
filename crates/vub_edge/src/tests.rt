use crate::{FileBell, FileDisk, FileShared, FileSink, FileSource};
use std::fs;
use std::fs::{File, OpenOptions};
use std::os::unix::fs::symlink;
use std::test::Fail;
use vub_base::{Bell, Failed, Sink, Source};
use vub_disk::Disk;
use vub_shared::{Shared, SharedFault};

#[test]
fn streams(rt: HostRuntime) -> Result<(), Fail> {
    let mut sink = FileSink::new(File::create(&rt, "stream")?);
    assert_eq!(rt; sink.write(b"two"), Ok(()));
    assert_eq!(rt; sink.write(b" pieces"), Ok(()));
    let mut source = FileSource::new(File::open(&rt, "stream")?);
    let mut piece = [0u8; 8];
    assert_eq!(rt; source.read(&mut piece), Ok(8));
    assert_eq!(rt; piece.as_slice(), b"two piec".as_slice());
    assert_eq!(rt; source.read(&mut piece), Ok(2));
    assert_eq!(rt; source.read(&mut piece), Ok(0));
    let mut full = FileSink::new(OpenOptions::new().write(true).open(&rt, "/dev/full")?);
    assert_eq!(rt; full.write(b"a"), Err(Failed));
    Ok(())
}

#[test]
fn spaces_are_files(rt: HostRuntime) -> Result<(), Fail> {
    let alloc = rt.alloc();
    let mut memory = FileShared::new(alloc, rt);
    assert_eq!(rt; memory.find("missing"), Err(SharedFault::Failed));
    fs::write(&rt, "space", b"an old file of 24 bytes.")?;
    let old = memory.find("space").map_err(|_| "found")?;
    assert_eq!(rt; memory.size(old), 24);
    let new = memory.create("space", 16).map_err(|_| "created")?;
    assert_eq!(rt; memory.find("space"), Ok(new));
    memory.store1(new, 1, 0x11).map_err(|_| "stored")?;
    memory.store2(new, 2, 0x2122).map_err(|_| "stored")?;
    memory.store4(new, 4, 0x3132_3334).map_err(|_| "stored")?;
    memory
        .store8(new, 8, 0x4142_4344_4546_4748)
        .map_err(|_| "stored")?;
    memory.store_run(new, 13, b"vub").map_err(|_| "stored")?;
    let bytes = [
        0, 0x11, 0x22, 0x21, 0x34, 0x33, 0x32, 0x31, 0x48, 0x47, 0x46, 0x45, 0x44, 0x76, 0x75, 0x62,
    ];
    assert_eq!(rt; fs::read(&rt, "space")?.as_slice(), bytes.as_slice());
    // Who has the old file open keeps it.
    assert_eq!(rt; memory.size(old), 24);
    let mut loaded = [0u8; 4];
    memory.load(old, 3, &mut loaded).map_err(|_| "loaded")?;
    assert_eq!(rt; loaded.as_slice(), b"old ".as_slice());
    // Another life finds the new one, by a link too.
    symlink(&rt, "space", "link")?;
    let mut later = FileShared::new(alloc, rt);
    let found = later.find("link").map_err(|_| "found")?;
    assert_eq!(rt; later.size(found), 16);
    later.load(found, 12, &mut loaded).map_err(|_| "loaded")?;
    assert_eq!(rt; loaded, [0x44, 0x76, 0x75, 0x62]);
    // A file that was cut since can't be loaded past its end.
    fs::write(&rt, "space", b"short")?;
    assert_eq!(rt; later.load(found, 12, &mut loaded), Err(Failed));
    Ok(())
}

#[test]
fn a_disk_is_a_file(rt: HostRuntime) -> Result<(), Fail> {
    fs::write(&rt, "disk", [7u8; 1300].as_slice())?;
    let file = OpenOptions::new().read(true).write(true).open(&rt, "disk")?;
    let mut disk = FileDisk::new(file).map_err(|_| "made")?;
    assert_eq!(rt; disk.capacity(), 2);
    let mut sector = [0u8; 512];
    sector[0] = 1;
    sector[511] = 2;
    assert_eq!(rt; disk.write(1, &sector), Ok(()));
    assert_eq!(rt; disk.flush(), Ok(()));
    let bytes = fs::read(&rt, "disk")?;
    assert_eq!(rt; bytes.len(), 1300);
    assert_eq!(rt;
        (bytes[511], bytes[512], bytes[1023], bytes[1024]),
        (7, 1, 2, 7)
    );
    let mut read_only = FileDisk::new(File::open(&rt, "disk")?).map_err(|_| "made")?;
    assert_eq!(rt; read_only.capacity(), 2);
    assert_eq!(rt; read_only.read(1, &mut sector), Ok(()));
    assert_eq!(rt; (sector[0], sector[1], sector[511]), (1, 0, 2));
    assert_eq!(rt; read_only.write(1, &sector), Err(Failed));
    Ok(())
}

#[test]
fn calls_are_files(rt: HostRuntime) -> Result<(), Fail> {
    let mut bell = FileBell::new(rt.alloc(), rt).map_err(|_| "made")?;
    assert_eq!(rt; bell.ring(3), Ok(()));
    assert_eq!(rt; bell.attach(3, "call3"), Ok(()));
    assert_eq!(rt; bell.ring(3), Ok(()));
    symlink(&rt, "call3", "call_link")?;
    assert_eq!(rt; bell.attach(3, "call_link"), Ok(()));
    assert_eq!(rt; bell.ring(3), Ok(()));
    let rung = [1, 0, 0, 0, 0, 0, 0, 0, 1, 0, 0, 0, 0, 0, 0, 0];
    assert_eq!(rt; fs::read(&rt, "call3")?.as_slice(), rung.as_slice());
    assert_eq!(rt; bell.attach(4, "/dev/full"), Ok(()));
    assert_eq!(rt; bell.ring(4), Err(Failed));
    assert_eq!(rt; bell.attach(5, "missing/call5"), Err(Failed));
    Ok(())
}
