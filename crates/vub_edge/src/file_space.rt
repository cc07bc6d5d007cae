// A space that is an open file.
ghost use Rattle.std.specs.Prelude.{◌<◌, ◌^◌};

// A space: the name, the open file, and the size in bytes that it was handed out with.
#[derive(Drop)]
pub struct FileSpace<F> {
    pub name: String,
    pub file: F,
    pub size: u64,
    ghost fits: { size < 2 ^ 64 },
}
