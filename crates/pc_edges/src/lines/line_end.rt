//! The end of a line.
ghost use Rattle.std.specs.Prelude.{◌≡◌, ◌≤◌, length};
ghost use Rattle.pc_text.specs.Fields.{run_len};

use memchr::memchr;

/// Returns how many bytes are before the first end of a line: all of them if there is none. It reads 32 bytes at a
/// time.
pub fn line_len(bytes: &[u8]) -> usize
    ensures value { result ≡ run_len 10 bytes.now }
    ensures within { result ≤ length bytes.now }
{
    match memchr(b'\n', bytes) {
        Some(end) => end,
        None => bytes.len(),
    }
}
