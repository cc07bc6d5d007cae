//! Little-endian numbers in bytes.
ghost use Rattle.std.specs.Prelude.{◌≡◌, ◌+◌, ◌≤◌, length};
ghost use Rattle.vub_base.specs.Fields.{field, with_field};

use byteorder::{ByteOrder, LittleEndian};

/// The number in the 2 bytes from `at` on.
pub fn get_u16(bytes: &[u8], at: usize) -> u16
    requires { at + 2 ≤ length bytes.now }
    ensures { result ≡ field 2 at bytes.now }
{
    LittleEndian::read_u16(&bytes[at..])
}

/// The number in the 4 bytes from `at` on.
pub fn get_u32(bytes: &[u8], at: usize) -> u32
    requires { at + 4 ≤ length bytes.now }
    ensures { result ≡ field 4 at bytes.now }
{
    LittleEndian::read_u32(&bytes[at..])
}

/// The number in the 8 bytes from `at` on.
pub fn get_u64(bytes: &[u8], at: usize) -> u64
    requires { at + 8 ≤ length bytes.now }
    ensures { result ≡ field 8 at bytes.now }
{
    LittleEndian::read_u64(&bytes[at..])
}

/// Writes the number into the 2 bytes from `at` on, and nothing else.
pub fn put_u16(bytes: &mut [u8], at: usize, value: u16)
    requires { at + 2 ≤ length bytes.old }
    ensures { bytes.new ≡ with_field 2 at value bytes.old }
{
    LittleEndian::write_u16(&mut bytes[at..], value);
}

/// Writes the number into the 4 bytes from `at` on, and nothing else.
pub fn put_u32(bytes: &mut [u8], at: usize, value: u32)
    requires { at + 4 ≤ length bytes.old }
    ensures { bytes.new ≡ with_field 4 at value bytes.old }
{
    LittleEndian::write_u32(&mut bytes[at..], value);
}

/// Writes the number into the 8 bytes from `at` on, and nothing else.
pub fn put_u64(bytes: &mut [u8], at: usize, value: u64)
    requires { at + 8 ≤ length bytes.old }
    ensures { bytes.new ≡ with_field 8 at value bytes.old }
{
    LittleEndian::write_u64(&mut bytes[at..], value);
}
