// Float tools: narrowing f64 to f32, and the length of a pair. Each answers every bit pattern. A
// positive value is kept as q * 2^k times the smallest value of its format, so that k is the
// exponent's field less one, and 0 for a subnormal. What the library's casts do rests on the
// processor; here it is proved.
#![tactic(auto)]

ghost use Rattle.std.specs.Prelude.{◌≡◌, ◌*◌, ◌^◌, ◌<◌};
ghost use Rattle.std.specs.Float.{binary32, binary64};
ghost use Rattle.std.specs.Float.Ieee.{round, units};
ghost use Rattle.std.specs.Float.Ieee.Nearest.{closest};
ghost use Rattle.roots.specs.Steps.{Packable};
ghost use Rattle.floats.specs.Narrow.{narrow, hypot_of};

// The f32 nearest to x, a tie to the even one: a subnormal, a zero or an infinity where x lies there.
pub fn narrow_f64_to_f32(x: f64) -> f32
    ensures { result ≡ narrow x }
{
    if x.is_nan() {
        return f32::NAN;
    }
    let b = x.to_bits();
    let minus = 0x8000_0000_0000_0000 <= b;
    let field = b % 0x8000_0000_0000_0000 / 0x10_0000_0000_0000;
    let digits = b % 0x10_0000_0000_0000;
    if field == 2047 {
        // 2^277 of the smallest values is the first that an f32 cannot hold.
        return pack_f32(minus, 0x80_0000, 254);
    }
    if field == 0 {
        narrow_units(minus, digits, 0)
    } else {
        narrow_units(minus, digits + 0x10_0000_0000_0000, field - 1)
    }
}

// The length of (a, b): both widened, a·a + b·b in f64, root, narrowed.
#[tactic(auto, unfolding(crate::specs::Narrow::hypot_of))]
pub fn hypot_f32(a: f32, b: f32) -> f32
    ensures { result ≡ hypot_of a b }
{
    let x = f64::from(a);
    let y = f64::from(b);
    narrow_f64_to_f32(roots::sqrt_f64(x * x + y * y))
}

// q * 2^k of the smallest values of an f64, as an f32.
fn narrow_units(minus: bool, q: u64, k: u64) -> f32
    requires { Packable binary64 q k × (k < 2048) }
    ensures { result ≡ round binary32 minus (q * 2 ^ k) (2 ^ 1074) }
{
    // The f32's smallest value is 2^925 of them, and a full f64 significand drops 29 digits.
    let dropped = k.saturating_sub(896);
    pack_f32(minus, shift_nearest(q, 925 + dropped - k), dropped)
}

// q / 2^by to the nearest whole number, a tie to the even one.
fn shift_nearest(q: u64, by: u64) -> u64
    requires { q < 2 ^ 62 }
    ensures { result ≡ closest q (2 ^ by) }
{
    if 62 < by {
        return 0;
    }
    let unit = 1 << by;
    let kept = q >> by;
    let rest = (q - (kept << by)) * 2;
    if rest < unit {
        return kept;
    }
    if unit < rest {
        return kept + 1;
    }
    kept + kept % 2
}

// The float of a sign and q * 2^k smallest values. A carry of q goes on into the exponent's field,
// and out of the last one to the infinity's.
fn pack_f32(minus: bool, q: u64, k: u64) -> f32
    requires { Packable binary32 q k }
    ensures { result ≡ units binary32 minus q k }
{
    let code = if k < 254 {
        k * 0x80_0000 + q
    } else {
        0x7f80_0000
    };
    let sign = if minus { 0x8000_0000 } else { 0 };
    f32::from_bits((sign + code) as u32)
}
