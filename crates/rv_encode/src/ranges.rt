//! The ranges of an instruction's fields.
ghost use Rattle.std.specs.Prelude.{◌≡◌, ◌<◌, ◌≤◌, ◌^◌, IfSome, unsigned_abs};
ghost use Rattle.std.specs.Option.{SomeIff};
ghost use Rattle.rv_inst.specs.Spelling.{IsRegister, IsNumber, IsMultiple, IsAmount, low_bits};

/// The register's number, where there is such a register.
pub fn register(r: u8) -> Option<u32>
    ensures { SomeIff result (IsRegister r) r }
{
    (r < 32).then_some(u32::from(r))
}

/// The low bits of the number, where it is a two's complement number of so many bits.
pub fn number(bits: u32, z: i64) -> Option<u32>
    requires { (0 < bits) × (bits ≤ 32) }
    ensures value { SomeIff result (IsNumber bits z) (low_bits bits z) }
    ensures fits { IfSome result (λ n. n < 2 ^ bits) }
{
    let end = i64::from(1u32 << (bits - 1));
    if z < -end || end <= z {
        return None;
    }
    Some(z.rem_euclid(2 * end) as u32)
}

/// The same, where the number is a multiple of another.
pub fn multiple(bits: u32, of: u64, z: i64) -> Option<u32>
    requires { (0 < of) × (0 < bits) × (bits ≤ 32) }
    ensures value { SomeIff result (IsNumber bits z × IsMultiple of z) (low_bits bits z) }
    ensures fits { IfSome result (λ n. n < 2 ^ bits) }
{
    if z.unsigned_abs() % of != 0 {
        return None;
    }
    number(bits, z)
}

/// The amount of a shift of so many bits, where it is one.
pub fn amount(bits: u32, z: i64) -> Option<u32>
    requires { (0 < bits) × (bits ≤ 64) }
    ensures { SomeIff result (IsAmount bits z) (unsigned_abs z) }
{
    if z < 0 || i64::from(bits) <= z {
        return None;
    }
    Some(z as u32)
}
