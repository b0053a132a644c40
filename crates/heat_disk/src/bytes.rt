//! Bytes of a file in memory: written over, and read.
ghost use Rattle.std.specs.Prelude.{◌≡◌, ◌+◌, ◌≤◌, ◌++◌, min, length, take, drop, replicate};
ghost use Rattle.std.specs.Prelude.{IsOk, OnOk, OnErr, vec_len, vec_capacity};
ghost use Rattle.heat_disk.specs.Images.{overwritten, Fills};

use std::alloc::AllocError;

/// Writes these bytes over what stands at this place, and past the end.
pub(crate) fn overwrite(file: &mut Vec<u8>, at: usize, bytes: &[u8]) -> Result<(), AllocError>
    ensures ok { OnOk result (file.new.items ≡ overwritten at bytes.now file.old.items) }
    ensures err { OnErr result (file.new.items ≡ file.old.items) }
    ensures capacity { vec_capacity file.old ≤ vec_capacity file.new }
    ensures succeeds { at + length bytes.now ≤ vec_capacity file.old →
        at ≤ vec_len file.old → IsOk result }
{
    let len = file.len();
    let from = if at < len { at } else { len };
    let over = if bytes.len() < len - from {
        bytes.len()
    } else {
        len - from
    };
    file.extend_from_slice(&bytes[over..])?;
    file[from..from + over].copy_from_slice(&bytes[..over]);
    Ok(())
}

/// Puts the bytes from this place on in front of the buffer, as far as both go, and says how many.
pub(crate) fn fill(buf: &mut [u8], bytes: &[u8], at: usize) -> usize
    ensures count { result ≤ length buf.old }
    ensures fills { Fills bytes.now at buf.old buf.new result }
{
    let from = if at < bytes.len() { at } else { bytes.len() };
    let rest = &bytes[from..];
    let count = if rest.len() < buf.len() {
        rest.len()
    } else {
        buf.len()
    };
    buf[..count].copy_from_slice(&rest[..count]);
    count
}
