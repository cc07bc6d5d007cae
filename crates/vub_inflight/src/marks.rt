//! Marks of the entries of a region.
ghost use Rattle.std.specs.Prelude.{◌≡◌, ◌≤◌, not, ◌||◌, false, nat_lt};
ghost use Rattle.std.proofs.Common.{get_or};

/// The most entries of a region.
pub const MOST_ENTRIES: usize = 1024;

/// The links that were met, a mark for each entry.
pub type Marks = [bool; MOST_ENTRIES];

/// Whether a link is none of the entries below `size` or was met before.
pub fn is_bad(link: u16, size: u16, met: &Marks) -> bool
    requires { size ≤ 1024 }
    ensures { result ≡ (not (nat_lt link size) || get_or met.now link false) }
{
    link >= size || met[usize::from(link)]
}
