//! Short reads.

use jk_io::Source;

/// The length of the next read, 9 where it failed.
pub fn length_read<S: Source>(source: &mut S) -> usize {
    let mut buf = [0u8; 8];
    source.read(&mut buf).unwrap_or(9)
}

/// As `length_read`, of up to 128 bytes, 999 where it failed.
pub fn read_len<S: Source>(source: &mut S) -> usize {
    let mut buf = [0u8; 128];
    source.read(&mut buf).unwrap_or(999)
}
