// Square roots of f32 and f64. Each answers every bit pattern. A positive value is kept as q * 2^k
// times the smallest value of its format, so that k is the exponent's field less one, and 0 for a
// subnormal. The library has a root of the processor's; that this one is IEEE 754's is proved here.
#![tactic(auto)]

ghost use Rattle.std.specs.Prelude.{◌≡◌, ◌*◌, ◌/◌, ◌^◌, ◌≤◌, ◌<◌};
ghost use Rattle.std.specs.Float.{binary32, binary64};
ghost use Rattle.roots.specs.Root.{SquareRoot, whole_root};
ghost use Rattle.roots.specs.Steps.{Positive, Rootable, RootOfPattern, RootOfUnits, Halved};

// A format of IEEE 754: how many digits a significand has, and l, where the smallest value is 2^-l.
#[derive(Clone, Copy)]
struct Format {
    digits: u64,
    least: u64,
}

const BINARY32: Format = Format {
    digits: 24,
    least: 149,
};

const BINARY64: Format = Format {
    digits: 53,
    least: 1074,
};

// The square root of IEEE 754-2019, to nearest even.
pub fn sqrt_f32(x: f32) -> f32
    ensures { SquareRoot binary32 x result }
{
    if x.is_nan() {
        return f32::NAN;
    }
    let b = x.to_bits();
    if b % 0x8000_0000 == 0 || b == 0x7f80_0000 {
        return x;
    }
    if 0x7f80_0000 < b {
        return f32::NAN;
    }
    f32::from_bits(root_pattern(b as u64, BINARY32) as u32)
}

// The same of an f64. The tests are written out for each format, as they speak of its patterns; what follows them is one function.
pub fn sqrt_f64(x: f64) -> f64
    ensures { SquareRoot binary64 x result }
{
    if x.is_nan() {
        return f64::NAN;
    }
    let b = x.to_bits();
    if b % 0x8000_0000_0000_0000 == 0 || b == 0x7ff0_0000_0000_0000 {
        return x;
    }
    if 0x7ff0_0000_0000_0000 < b {
        return f64::NAN;
    }
    f64::from_bits(root_pattern(b, BINARY64))
}

// The pattern of the root of a positive number, b its pattern. With p digits in a significand, the
// pattern of q * 2^k is k * 2^(p - 1) + q.
fn root_pattern(b: u64, f: Format) -> u64
    requires { Positive b f.digits f.least }
    ensures { RootOfPattern b f.digits f.least result }
{
    let field = b >> (f.digits - 1);
    if field == 0 {
        return nearest_root(b, 0, f);
    }
    let k = field - 1;
    nearest_root(b - (k << (f.digits - 1)), k, f)
}

// The pattern of the root of q * 2^k. A subnormal is first brought to a full significand, of 64
// digits, whose exponent may be negative. With r one digit more of the root than the format has,
// (r + 1) / 2 is the nearest: an odd r is not the whole root, as its square is odd and the number
// under the root is not. A carry goes on into the exponent's field.
fn nearest_root(q: u64, k: u64, f: Format) -> u64
    requires { Rootable q k f.digits f.least }
    ensures { RootOfUnits q k f.digits f.least result }
{
    let z = q.leading_zeros();
    let half = halve_exponent(k, z as u64, f);
    let r = root_digits((q << z) >> half.odd, f.digits + 1);
    (half.dropped << (f.digits - 1)) + (r + 1) / 2
}

// What halving an exponent leaves over, 0 or 1, and the digits that the root's exponent drops.
#[derive(Clone, Copy)]
struct Half {
    odd: u64,
    dropped: u64,
}

// The full significand times 2^e is the number, so e is negative below 2^64. A shift halves towards
// minus infinity, so half is e / 2 rounded up, and odd is 0 or 1 for a negative e too. The root of
// 2^64 is 2^32, of which the format keeps its digits.
fn halve_exponent(k: u64, z: u64, f: Format) -> Half
    requires { (k < 2048) × (z < 64) × (f.digits < 54) × (f.least < 2048) × (2 * f.digits < f.least) }
    ensures { Halved k z f.digits f.least result.odd result.dropped }
{
    let e = (k as i32) - ((f.least + z) as i32);
    let half = (e + 1) >> 1;
    let odd = half + half - e;
    let dropped = half + ((f.least + 32 - f.digits) as i32);
    Half {
        odd: odd as u64,
        dropped: dropped as u64,
    }
}

// The first n binary digits of the root of m / 2^64, two digits of m for each.
fn root_digits(m: u64, n: u64) -> u64
    requires { n ≤ 54 }
    ensures { result ≡ whole_root (m * 4 ^ n / 2 ^ 64) }
{
    let mut left = m;
    let mut rest = 0;
    let mut r = 0;
    for i in 0..n {
        rest = rest * 4 + (left >> 62);
        left <<= 2;
        let next = r * 4 + 1;
        r *= 2;
        if next <= rest {
            rest -= next;
            r += 1;
        }
    }
    r
}
