use vub_base::Space;

/// What a look-up of a name answered, or the creation of a space under one.
#[derive(Clone, Copy, Debug)]
pub struct Found {
    pub space: Space,
    /// The size of the space in bytes.
    pub size: u64,
}

impl Default for Found {
    fn default() -> Found {
        Found {
            space: Space { number: 0 },
            size: 0,
        }
    }
}
