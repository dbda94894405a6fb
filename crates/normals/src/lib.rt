// 01, "Unit normal". Values in, value out. No function here is a public call.
#![tactic(auto)]

ghost use Rattle.std.specs.Prelude.{◌≡◌};
ghost use Rattle.geometry.specs.Answer.{point3, corners_of};
ghost use Rattle.normals.specs.Normal as normal;

use geometry::{Triangle, Vec3};

// n over the root of n·n.
#[tactic(auto, unfolding(crate::specs::Normal::unit, crate::specs::Normal::over3))]
fn unit(n: Vec3) -> Vec3
    ensures { point3 result ≡ normal.unit (point3 n) }
{
    let r = roots::sqrt_f32(rays::dot3(n, n));
    Vec3 {
        x: n.x / r,
        y: n.y / r,
        z: n.z / r,
    }
}

#[tactic(auto, unfolding(crate::specs::Normal::unit_normal))]
pub fn unit_normal(p: Triangle<Vec3>) -> Vec3
    ensures { point3 result ≡ normal.unit_normal (corners_of p) }
{
    unit(rays::normal(p))
}
