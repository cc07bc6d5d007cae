use vub_base::Space;

// A store: its space and place, and where its bytes begin and end among those of all stores.
#[derive(Clone, Copy)]
pub struct Kept {
    pub space: Space,
    pub place: u64,
    pub start: usize,
    pub end: usize,
}
