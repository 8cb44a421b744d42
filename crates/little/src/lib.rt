// Numbers of several bytes, the low byte first. A function for each width: one that is generic in it would need a trait
// that only names the methods of std again.
#![tactic(auto)]

ghost use Rattle.std.specs.Prelude.{◌≡◌};
ghost use Rattle.little.specs.Little.{number_in, bytes_of};

// The number of 16 bits in two bytes.
pub fn word(bytes: [u8; 2]) -> u16
    ensures { result ≡ number_in bytes }
{
    u16::from_le_bytes(bytes)
}

// The number of 64 bits in eight bytes.
pub fn long(bytes: [u8; 8]) -> u64
    ensures { result ≡ number_in bytes }
{
    u64::from_le_bytes(bytes)
}

// The two bytes of a number of 16 bits.
pub fn word_bytes(value: u16) -> [u8; 2]
    ensures { result ≡ bytes_of 2 value }
{
    u16::to_le_bytes(value)
}

// The eight bytes of a number of 64 bits.
pub fn long_bytes(value: u64) -> [u8; 8]
    ensures { result ≡ bytes_of 8 value }
{
    u64::to_le_bytes(value)
}
