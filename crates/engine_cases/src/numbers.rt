// The numbers of a case file, 8 bytes each, the low byte first.
use std::io;
use std::io::Read;

// The next number; None where the file has no whole one left.
pub(crate) fn next_if_any(file: &mut impl Read) -> io::Result<Option<u64>> {
    let mut bytes = [0; 8];
    let got = reads::fill(file, &mut bytes)?;
    Ok((got == 8).then_some(u64::from_le_bytes(bytes)))
}

// The next number; what is missing of it past the file's end counts as zeros.
pub(crate) fn next(file: &mut impl Read) -> io::Result<u64> {
    let mut bytes = [0; 8];
    reads::fill(file, &mut bytes)?;
    Ok(u64::from_le_bytes(bytes))
}

// The next numbers, as many as the answer has room for.
pub(crate) fn next_all<const N: usize>(file: &mut impl Read) -> io::Result<[u64; N]> {
    let mut numbers = [0; N];
    for number in &mut numbers {
        *number = next(file)?;
    }
    Ok(numbers)
}

// The low 16 bits of a number. Beside `byte`, since a cast that is generic in the width would need a trait.
pub(crate) fn word(number: u64) -> u16 {
    (number % 65536) as u16
}

// The low 8 bits of a number.
pub(crate) fn byte(number: u64) -> u8 {
    (number % 256) as u8
}
