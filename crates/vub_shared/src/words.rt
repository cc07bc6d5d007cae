// Loads of one word.
ghost use Rattle.std.specs.Prelude.{◌≡◌, ◌≤◌, ◌+◌, ℕ, IfOk};
ghost use Rattle.vub_base.specs.Causes.{HasCause};
ghost use Rattle.vub_base.specs.Told.{WhereTold};
ghost use Rattle.vub_shared.specs.Bytes.{word};
ghost use Rattle.vub_shared.specs.Frames.{OnlyLoads};

use crate::Shared;
use byteorder::{ByteOrder, LittleEndian};
use vub_base::{Failed, Space};

/// The byte at `place` of the space.
pub fn load_u8<M: Shared>(mem: &mut M, space: Space, place: u64) -> Result<u8, Failed>
    requires { place + 1 ≤ M.sizes mem.old space.number }
    ensures loaded { IfOk result (λ v. WhereTold (M.told mem.old) (λ m. v ≡ word 1 m space.number place)) }
    ensures only_loads { OnlyLoads M.told M.trail M.names M.handed M.sizes mem.old mem.new }
    ensures cause { HasCause (M.faults mem.old) (M.faults mem.new) result }
{
    let mut buffer = [0u8; 1];
    mem.load(space, place, &mut buffer)?;
    Ok(buffer[0])
}

/// The number in the 2 bytes from `place` of the space on, the lowest first.
pub fn load_u16<M: Shared>(mem: &mut M, space: Space, place: u64) -> Result<u16, Failed>
    requires { place + 2 ≤ M.sizes mem.old space.number }
    ensures loaded { IfOk result (λ v. WhereTold (M.told mem.old) (λ m. v ≡ word 2 m space.number place)) }
    ensures only_loads { OnlyLoads M.told M.trail M.names M.handed M.sizes mem.old mem.new }
    ensures cause { HasCause (M.faults mem.old) (M.faults mem.new) result }
{
    let mut buffer = [0u8; 2];
    mem.load(space, place, &mut buffer)?;
    Ok(LittleEndian::read_u16(&buffer))
}

/// The number in the 4 bytes from `place` of the space on, the lowest first.
pub fn load_u32<M: Shared>(mem: &mut M, space: Space, place: u64) -> Result<u32, Failed>
    requires { place + 4 ≤ M.sizes mem.old space.number }
    ensures loaded { IfOk result (λ v. WhereTold (M.told mem.old) (λ m. v ≡ word 4 m space.number place)) }
    ensures only_loads { OnlyLoads M.told M.trail M.names M.handed M.sizes mem.old mem.new }
    ensures cause { HasCause (M.faults mem.old) (M.faults mem.new) result }
{
    let mut buffer = [0u8; 4];
    mem.load(space, place, &mut buffer)?;
    Ok(LittleEndian::read_u32(&buffer))
}

/// The number in the 8 bytes from `place` of the space on, the lowest first.
pub fn load_u64<M: Shared>(mem: &mut M, space: Space, place: u64) -> Result<u64, Failed>
    requires { place + 8 ≤ M.sizes mem.old space.number }
    ensures loaded { IfOk result (λ v. WhereTold (M.told mem.old) (λ m. v ≡ word 8 m space.number place)) }
    ensures only_loads { OnlyLoads M.told M.trail M.names M.handed M.sizes mem.old mem.new }
    ensures cause { HasCause (M.faults mem.old) (M.faults mem.new) result }
{
    let mut buffer = [0u8; 8];
    mem.load(space, place, &mut buffer)?;
    Ok(LittleEndian::read_u64(&buffer))
}
