//! Reads the whole input, up to a limit.
ghost use Rattle.std.specs.Prelude.{◌≡◌, ◌+◌, ◌-◌, ◌<◌, ◌≤◌, ◌++◌, [], List, ℕ, length, vec_len, IfOk, OnOk, OnErr, IsErrOf, IfSome, Some};
ghost use Rattle.vub_base.specs.Causes.{Rose};
ghost use Rattle.vublk.specs.Flows.{Took, TookAll, TakesAtMost, input_limit, IsPastLimit};

use std::alloc::Global;
use vub_base::Source;

/// The most bytes that an input may have.
const LIMIT: usize = 16_777_216;

/// The most bytes that are asked for at once.
const PIECE: usize = 65_536;

/// Why an input was not read.
#[derive(Clone, Copy, Debug, PartialEq, Eq)]
pub enum ReadFault {
    /// Want of memory.
    Memory,
    /// The source failed.
    Failed,
    /// The input has more than 16,777,216 bytes.
    TooLong,
}

/// Reads at most as many bytes as `piece` has, and at most one past the limit, and appends them.
/// 0 is the end of the input.
fn read_piece<I: Source>(
    input: &mut I,
    piece: &mut [u8],
    bytes: &mut Vec<u8>,
) -> Result<usize, ReadFault>
    requires room { 0 < length piece.old }
    requires below { vec_len bytes.old ≤ LIMIT }
    ensures grows { IfOk result (λ n. vec_len bytes.new ≡ vec_len bytes.old + n) }
    ensures limit { vec_len bytes.new ≤ LIMIT + 1 }
    ensures later { I.faults input.old ≤ I.faults input.new }
    ensures failed { IsErrOf result ReadFault.Failed → Rose (I.faults input.old) (I.faults input.new) }
    ensures short { IsErrOf result ReadFault.TooLong → ⊥ }
    ensures took { OnOk result ((read : List ℕ) × (bytes.new.items ≡ bytes.old.items ++ read) × Took (I.left input.old) (I.left input.new) read) }
    ensures ended { IfOk result (λ n. n ≡ 0 → IfSome (I.left input.old) (λ l. l ≡ [])) }
    ensures taken { TakesAtMost (LIMIT + 1 - vec_len bytes.old) (I.left input.old) (I.left input.new) }
{
    let room = (LIMIT + 1 - bytes.len()).min(piece.len());
    let window = &mut piece[..room];
    let count = input.read(window).map_err(|_| ReadFault::Failed)?;
    bytes
        .extend_from_slice(&window[..count])
        .map_err(|_| ReadFault::Memory)?;
    Ok(count)
}

/// Reads all that is left, at most one byte past the limit.
pub fn read_all<I: Source>(alloc: Global, input: &mut I) -> Result<Vec<u8>, ReadFault>
    ensures later { I.faults input.old ≤ I.faults input.new }
    ensures failed { IsErrOf result ReadFault.Failed → Rose (I.faults input.old) (I.faults input.new) }
    ensures whole { IfOk result (λ v. TookAll (I.left input.old) (I.left input.new) v.items) }
    ensures fits { IfOk result (λ v. vec_len v ≤ LIMIT) }
    ensures too_long { IsErrOf result ReadFault.TooLong → IsPastLimit (I.left input.old) }
    ensures taken { TakesAtMost (input_limit + 1) (I.left input.old) (I.left input.new) }
{
    let mut piece = [0; PIECE];
    let mut bytes = Vec::new(alloc);
    while bytes.len() <= LIMIT {
        let count = read_piece(input, &mut piece, &mut bytes)?;
        if count == 0 {
            return Ok(bytes);
        }
    }
    Err(ReadFault::TooLong)
}
