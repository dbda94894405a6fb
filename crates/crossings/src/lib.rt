// Two faces that cross between two pixels, of their unit normals in the image. The Rust's axis is `axis.down`: 0 for pairs side by side, 1 for pairs one
// above the other. No function here is a public call.
#![tactic(auto)]

ghost use Rattle.std.specs.Prelude.{◌≡◌};
ghost use Rattle.geometry.specs.Answer.{point3};
ghost use Rattle.crossings.specs.Crossing as spec;

use geometry::Vec3;
use pixels::Axis;

// The coordinate along the axis.
#[tactic(auto, unfolding(crate::specs::Crossing::component))]
fn component(axis: Axis, n: Vec3) -> f32
    ensures { result ≡ spec.component axis.down (point3 n) }
{
    if axis.down == 0 { n.x } else { n.y }
}

// d along the axis.
#[tactic(auto, unfolding(crate::specs::Crossing::along))]
pub fn along(axis: Axis, d: f32) -> Vec3
    ensures { point3 result ≡ spec.along axis.down d }
{
    if axis.down == 0 {
        Vec3 {
            x: d,
            y: 0.0,
            z: 0.0,
        }
    } else {
        Vec3 {
            x: 0.0,
            y: d,
            z: 0.0,
        }
    }
}

#[tactic(auto, unfolding(crate::specs::Crossing::denominator))]
fn denominator(axis: Axis, n0: Vec3, n1: Vec3) -> f32
    ensures { result ≡ spec.denominator axis.down (point3 n0) (point3 n1) }
{
    component(axis, n0) * n1.z - n0.z * component(axis, n1)
}

#[tactic(auto, unfolding(crate::specs::Crossing::scale))]
fn scale(axis: Axis, n0: Vec3, n1: Vec3) -> f32
    ensures { result ≡ spec.scale axis.down (point3 n0) (point3 n1) }
{
    floats::hypot_f32(component(axis, n0), n0.z) * floats::hypot_f32(component(axis, n1), n1.z)
}

// The document's: of either zero, that zero. The library's `abs` clears the sign of −0.
#[tactic(auto, unfolding(crate::specs::Crossing::magnitude))]
fn magnitude(x: f32) -> f32
    ensures { result ≡ spec.magnitude x }
{
    if x < 0.0 { -x } else { x }
}

#[tactic(auto, unfolding(crate::specs::Crossing::skips))]
fn skips(denom: f32, scale: f32) -> bool
    ensures { result ≡ spec.skips denom scale }
{
    !geometry::finite(denom) || scale == 0.0 || magnitude(denom) <= 1e-6 * scale
}

// Are the planes with the normals n0 and n1 so nearly parallel that their intersection is skipped?
#[tactic(auto, unfolding(crate::specs::Crossing::skipped))]
pub fn skipped(axis: Axis, n0: Vec3, n1: Vec3) -> bool
    ensures { result ≡ spec.skipped axis.down (point3 n0) (point3 n1) }
{
    skips(denominator(axis, n0, n1), scale(axis, n0, n1))
}

// The first share's coefficient.
#[tactic(auto, unfolding(crate::specs::Crossing::coefficient0))]
pub fn coefficient0(axis: Axis, n0: Vec3, n1: Vec3) -> f32
    ensures { result ≡ spec.coefficient0 axis.down (point3 n0) (point3 n1) }
{
    n1.z / denominator(axis, n0, n1)
}

// The second share's, which the document defines by itself.
#[tactic(auto, unfolding(crate::specs::Crossing::coefficient1))]
pub fn coefficient1(axis: Axis, n0: Vec3, n1: Vec3) -> f32
    ensures { result ≡ spec.coefficient1 axis.down (point3 n0) (point3 n1) }
{
    -n0.z / denominator(axis, n0, n1)
}

// A share's gradient in the image.
#[tactic(auto, unfolding(crate::specs::Crossing::g_pix))]
pub fn g_pix(d: f32, coefficient: f32, n: Vec3) -> Vec3
    ensures { point3 result ≡ spec.g_pix coefficient (point3 n) d }
{
    rays::scaled3(d * coefficient, n)
}
