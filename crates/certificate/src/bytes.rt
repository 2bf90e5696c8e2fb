// Little-endian numbers inside a byte string; what lies past the end reads as 0.
ghost use Rattle.std.specs.Prelude.{◌≡◌, ◌+◌, ◌^◌, ◌<◌, slice_index};
ghost use Rattle.certificate.specs.Bytes.{u16_at, u32_at};

use std::array;

pub(crate) fn byte_at(bytes: &[u8], at: usize) -> u8
    ensures { result ≡ slice_index bytes.now at }
{
    bytes.get(at).copied().unwrap_or(0) // past the end 0, as the definition has it
}

pub(crate) fn u16_at(bytes: &[u8], at: usize) -> u16
    requires { at + 1 < 2 ^ 64 }
    ensures { result ≡ u16_at bytes.now at }
{
    u16::from_le_bytes(array::from_fn(|k| byte_at(bytes, at + k)))
}

pub(crate) fn u32_at(bytes: &[u8], at: usize) -> u32
    requires { at + 3 < 2 ^ 64 }
    ensures { result ≡ u32_at bytes.now at }
{
    u32::from_le_bytes(array::from_fn(|k| byte_at(bytes, at + k)))
}
