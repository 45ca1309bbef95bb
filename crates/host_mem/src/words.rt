// Words in a row of bytes, the lowest byte first.

ghost use Rattle.std.specs.Prelude.{◌≡◌, ◌+◌, ◌<◌, ◌≤◌, ◌^◌, length};
ghost use Rattle.spec_processor.specs.Bytes.{word, write_word};
ghost use Rattle.spec_processor.specs.Regions.{IsWidth};

/// The word of `width` bytes at `at`.
pub fn word_at(bytes: &[u8], at: usize, width: u8) -> u64
    requires width { IsWidth width }
    requires inside { at + width ≤ length bytes.now }
    ensures value { result ≡ word bytes.now at width }
    ensures small { result < 256 ^ width }
{
    match width {
        1 => bytes[at] as u64,
        2 => u16::from_le_bytes([bytes[at], bytes[at + 1]]) as u64,
        4 => u32::from_le_bytes([bytes[at], bytes[at + 1], bytes[at + 2], bytes[at + 3]]) as u64,
        _ => u64::from_le_bytes([
            bytes[at],
            bytes[at + 1],
            bytes[at + 2],
            bytes[at + 3],
            bytes[at + 4],
            bytes[at + 5],
            bytes[at + 6],
            bytes[at + 7],
        ]),
    }
}

/// Writes the `width` lowest bytes of `value` at `at`.
pub fn put_word(bytes: &mut [u8], at: usize, width: u8, value: u64)
    requires width { IsWidth width }
    requires inside { at + width ≤ length bytes.old }
    ensures { bytes.new ≡ write_word bytes.old at width value }
{
    let word = value.to_le_bytes();
    match width {
        1 => bytes[at] = word[0],
        2 => bytes[at..at + 2].copy_from_slice(&word[..2]),
        4 => bytes[at..at + 4].copy_from_slice(&word[..4]),
        _ => bytes[at..at + 8].copy_from_slice(&word),
    }
}
