//! Whole numbers in bytes, the highest first.
ghost use Rattle.std.specs.Prelude.{◌≡◌, length};
ghost use Rattle.disk_trait.specs.Numbers.{u32_bytes, u64_bytes, u128_bytes};

/// The 4 bytes of a number.
pub fn u32_bytes(number: u32) -> [u8; 4]
    ensures { result ≡ u32_bytes number }
{
    number.to_be_bytes()
}

/// The 8 bytes of a number.
pub fn u64_bytes(number: u64) -> [u8; 8]
    ensures { result ≡ u64_bytes number }
{
    number.to_be_bytes()
}

/// The 16 bytes of a number.
pub fn u128_bytes(number: u128) -> [u8; 16]
    ensures { result ≡ u128_bytes number }
{
    let mut bytes = [0u8; 16];
    let (high, low) = bytes.split_at_mut(8);
    high.copy_from_slice(&u64_bytes((number / HALF) as u64));
    low.copy_from_slice(&u64_bytes((number % HALF) as u64));
    bytes
}

const HALF: u128 = 1 << 64;

/// The number that 4 bytes spell.
pub fn read_u32(bytes: &[u8]) -> u32
    requires { length bytes.now ≡ 4 }
    ensures { u32_bytes result ≡ bytes.now }
{
    let mut word = [0u8; 4];
    word.copy_from_slice(bytes);
    u32::from_be_bytes(word)
}

/// The number that 8 bytes spell.
pub fn read_u64(bytes: &[u8]) -> u64
    requires { length bytes.now ≡ 8 }
    ensures { u64_bytes result ≡ bytes.now }
{
    let mut word = [0u8; 8];
    word.copy_from_slice(bytes);
    u64::from_be_bytes(word)
}

/// The number that 16 bytes spell.
pub fn read_u128(bytes: &[u8]) -> u128
    requires { length bytes.now ≡ 16 }
    ensures { u128_bytes result ≡ bytes.now }
{
    let (high, low) = bytes.split_at(8);
    u128::from(read_u64(high)) * HALF + u128::from(read_u64(low))
}
