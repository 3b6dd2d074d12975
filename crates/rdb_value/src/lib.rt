// The value of a constant of a types.rdb, as one of ten kinds.
#![tactic(auto)]

ghost use Rattle.std.specs.Prelude.{◌≡◌, ◌+◌, ◌≤◌, ◌<◌, length};
ghost use Rattle.number.specs.Number.{le};
ghost use Rattle.rdb_record.specs.Constant.{value_size};
ghost use Rattle.rdb_value.specs.Value.{float32, float64, value_of};

// The ten kinds of document 001. A NaN's bits are handed out as they are stored, since the language has one NaN, without a payload.
#[derive(Drop)]
pub enum Value {
    Boolean(bool),
    Byte(i8),
    Short(i16),
    UnsignedShort(u16),
    Long(i32),
    UnsignedLong(u32),
    Hyper(i64),
    UnsignedHyper(u64),
    Float(f32),
    Double(f64),
    FloatNan(u32),
    DoubleNan(u64),
}

// A number of 32 bits as binary32: above 0x7f800000, without the sign, are the NaNs.
pub fn float_of(x: u32) -> Value
    ensures { result ≡ float32 x }
{
    if 0x7f800000 < x % 0x80000000 {
        Value::FloatNan(x)
    } else {
        Value::Float(f32::from_bits(x))
    }
}

// A number of 64 bits as binary64.
pub fn double_of(x: u64) -> Value
    ensures { result ≡ float64 x }
{
    if 0x7ff0000000000000 < x % 0x8000000000000000 {
        Value::DoubleNan(x)
    } else {
        Value::Double(f64::from_bits(x))
    }
}

// Of a constant that is stored in one byte.
fn of_one(kind: u8, x: u8) -> Value
    requires { kind < 2 }
    ensures { result ≡ value_of kind x }
{
    if kind == 0 {
        return Value::Boolean(x == 1);
    }
    Value::Byte(signed::to_i8(x))
}

// In two.
fn of_two(kind: u8, x: u16) -> Value
    requires { (2 ≤ kind) × (kind < 4) }
    ensures { result ≡ value_of kind x }
{
    if kind == 2 {
        return Value::Short(signed::to_i16(x));
    }
    Value::UnsignedShort(x)
}

// In four, but a FLOAT.
fn of_four(kind: u8, x: u32) -> Value
    requires { (4 ≤ kind) × (kind < 6) }
    ensures { result ≡ value_of kind x }
{
    if kind == 4 {
        return Value::Long(signed::to_i32(x));
    }
    Value::UnsignedLong(x)
}

// In eight, but a DOUBLE.
fn of_eight(kind: u8, x: u64) -> Value
    requires { (6 ≤ kind) × (kind < 8) }
    ensures { result ≡ value_of kind x }
{
    if kind == 6 {
        return Value::Hyper(signed::to_i64(x));
    }
    Value::UnsignedHyper(x)
}

// The value of a constant of that kind whose bytes stand at `at`.
pub fn value_at(file: &[u8], kind: u8, at: usize) -> Value
    requires { at + value_size kind ≤ length file.now }
    ensures { result ≡ value_of kind (le (value_size kind) file.now at) }
{
    if kind < 2 {
        return of_one(kind, file[at]);
    }
    if kind < 4 {
        return of_two(kind, number::le16_at(file, at));
    }
    if kind < 6 {
        return of_four(kind, number::le32_at(file, at));
    }
    if kind < 8 {
        return of_eight(kind, number::le64_at(file, at));
    }
    if kind == 8 {
        return float_of(number::le32_at(file, at));
    }
    double_of(number::le64_at(file, at))
}
