// Eight bytes as a number of 64 bits, the low one first.
ghost use Rattle.std.specs.Prelude.{◌≡◌, ◌+◌, ◌<◌, ◌≤◌, length, drop};
ghost use Rattle.byte_words.specs.inner.Words.{number, four_bytes};

// The number in the eight bytes at `at`.
pub fn word(bytes: &[u8], at: usize) -> u64
    requires { at + 8 ≤ length bytes.now }
    ensures { result ≡ number 8 (drop at bytes.now) }
{
    half(bytes, at) + half(bytes, at + 4) * 4294967296
}

// Four bytes.
pub fn half(bytes: &[u8], at: usize) -> u64
    requires { at + 4 ≤ length bytes.now }
    ensures value { result ≡ four_bytes bytes.now at }
    ensures upper_bound { result < 4294967296 }
{
    let low = u64::from(bytes[at]) + u64::from(bytes[at + 1]) * 256;
    let high = u64::from(bytes[at + 2]) + u64::from(bytes[at + 3]) * 256;
    low + high * 65536
}
