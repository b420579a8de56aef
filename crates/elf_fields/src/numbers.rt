//! The low bits of whole numbers.
ghost use Rattle.std.specs.Prelude.{◌≡◌, ◌<◌, ◌≤◌, ◌^◌};
ghost use Rattle.rv_inst.specs.Spelling as spelling;

// The low bits of a number, as many as are asked for.
pub fn low_bits(count: u32, value: i128) -> u64
    requires { count ≤ 64 }
    ensures value { result ≡ spelling.low_bits count value }
    ensures fits { result < 2 ^ count }
{
    value.rem_euclid(1 << count) as u64
}
