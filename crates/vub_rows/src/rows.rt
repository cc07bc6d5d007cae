ghost use Rattle.std.specs.Prelude.{◌≡◌, true, false};
ghost use Rattle.vub_rows.specs.Lives.{booted_again, joined, joined_early, joined_twice, killed};
ghost use Rattle.vub_rows.specs.WriteAndRead.{header, read, read_records, schedule_of, write, write_records};
ghost use Rattle.vub_run.specs.LegalRuns.{are_attached};
ghost use Rattle.vub_run.specs.Run.{Run};
ghost use Rattle.vub_run.specs.Tracking.{TracksAlways};

/// The records of a write of one sector are a run of its schedule, and memory tracks their history.
pub fn one_write()
    ensures run { Run (schedule_of write) write_records }
    ensures tracked { TracksAlways header write_records }
{}

/// The records of a read of one sector are a run of its schedule, and memory tracks their history.
pub fn one_read()
    ensures run { Run (schedule_of read) read_records }
    ensures tracked { TracksAlways header read_records }
{}

/// Records tell whether a queue is attached: a join with an item attaches it, until a kill. A join or
/// a boot that is idle changes nothing.
pub fn attaching()
    ensures early { are_attached 0 joined_early ≡ false }
    ensures joins { are_attached 0 joined ≡ true }
    ensures stays { are_attached 0 joined_twice ≡ true }
    ensures ends { are_attached 0 killed ≡ false }
    ensures begins { are_attached 0 booted_again ≡ false }
{}
