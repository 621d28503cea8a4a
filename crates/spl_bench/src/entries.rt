// Numbers that are the same at each run: the entries of what is computed with, and the checksums of what comes out.
ghost use Rattle.std.specs.Prelude.{◌<◌, ◌≤◌};

/// The number after this one in a sequence of numbers.
pub(crate) fn next(state: u32) -> u32 {
    state % 65537 * 75 + 74
}

/// The number as an element of a field of this size that is not 0.
pub(crate) fn nonzero(state: u32, size: u16) -> u8
    requires least { 2 ≤ size }
    requires most { size ≤ 256 }
    ensures { result < size }
{
    (1 + state / 7 % (u32::from(size) - 1)) as u8
}

/// The checksum of what this one is of, and of one more number.
pub(crate) fn mixed(checksum: u32, item: u8) -> u32 {
    checksum % 65521 * 31 + u32::from(item)
}
