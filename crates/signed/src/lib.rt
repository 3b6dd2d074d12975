//! Signed numbers as natural ones, and natural ones as signed.
#![tactic(auto)]

ghost use Rattle.std.specs.Prelude.{◌≡◌};
ghost use Rattle.signed.specs.Bits.{bits_of, or_zero, signed};

/// The bits of a number, two's complement.
pub fn bits_16(x: i16) -> u64
    ensures { result ≡ bits_of 16 x }
{
    if x < 0 {
        65535 - ((-1 - x) as u64)
    } else {
        x as u64
    }
}

pub fn bits_32(x: i32) -> u64
    ensures { result ≡ bits_of 32 x }
{
    if x < 0 {
        4294967295 - ((-1 - x) as u64)
    } else {
        x as u64
    }
}

/// A number that the system gave; 0 where it is below 0.
pub fn unsigned(n: i32) -> u64
    ensures { result ≡ or_zero n }
{
    let bits = bits_32(n);
    if bits < 2147483648 {
        return bits;
    }
    0
}

/// Two's complement of eight bits.
pub fn to_i8(x: u8) -> i8
    ensures { result ≡ signed 7 x }
{
    if x < 128 {
        x as i8
    } else {
        -1 - ((255 - x) as i8)
    }
}

/// Of sixteen bits.
pub fn to_i16(x: u16) -> i16
    ensures { result ≡ signed 15 x }
{
    if x < 32768 {
        x as i16
    } else {
        -1 - ((65535 - x) as i16)
    }
}

/// Of 32 bits.
pub fn to_i32(x: u32) -> i32
    ensures { result ≡ signed 31 x }
{
    if x < 2147483648 {
        x as i32
    } else {
        -1 - ((4294967295 - x) as i32)
    }
}

/// Of 64 bits.
pub fn to_i64(x: u64) -> i64
    ensures { result ≡ signed 63 x }
{
    if x < 9223372036854775808 {
        x as i64
    } else {
        -1 - ((18446744073709551615 - x) as i64)
    }
}
