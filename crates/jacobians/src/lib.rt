// 01, "Projection": `jacobian_transform` and `mult_mat3_col_major`. Every function is total: values in, value out.
// No function here is a public call.
#![tactic(auto)]

ghost use Rattle.std.specs.Prelude.{◌≡◌, ◌<◌};
ghost use Rattle.geometry.specs.Arith.{floats};
ghost use Rattle.geometry.specs.Leaf.{entries};
ghost use Rattle.geometry.specs.Answer.{point3, projected_of};
ghost use Rattle.jacobians.specs.Formula as formula;
ghost use Rattle.jacobians.specs.Answer.{matrix_of};

use geometry::{Projected, Vec3};

// Nine numbers, column-major.
#[derive(Clone, Copy)]
pub struct Mat3 {
    pub c0: Vec3,
    pub c1: Vec3,
    pub c2: Vec3,
}

// The projected point and its divisor, which may be 0.
#[tactic(auto, unfolding(crate::specs::Formula::project_untested))]
pub fn project_untested(m: &[f32; 16], x: Vec3) -> Projected
    ensures { projected_of result ≡ formula.project_untested floats (entries m.now) (point3 x) }
{
    geometry::over(m, x, geometry::row(m, 3, x))
}

// Entry 3k + r, of the projected point's coordinate r and its divisor.
#[tactic(auto, unfolding(crate::specs::Formula::jacobian_entry))]
fn jacobian_entry(m: &[f32; 16], k: usize, r: usize, p: f32, w: f32) -> f32
    requires column { k < 3 }
    requires row { r < 3 }
    ensures { result ≡ formula.jacobian_entry floats (entries m.now) k r p w }
{
    (m[4 * k + r] - p * m[4 * k + 3]) / w
}

#[tactic(auto, unfolding(crate::specs::Formula::jacobian_column))]
fn jacobian_column(m: &[f32; 16], k: usize, at: Projected) -> Vec3
    requires { k < 3 }
    ensures { point3 result ≡ formula.jacobian_column floats (entries m.now) k (projected_of at) }
{
    Vec3 {
        x: jacobian_entry(m, k, 0, at.p.x, at.w),
        y: jacobian_entry(m, k, 1, at.p.y, at.w),
        z: jacobian_entry(m, k, 2, at.p.z, at.w),
    }
}

// How the projection of x moves with x.
#[tactic(auto, unfolding(crate::specs::Formula::jacobian, crate::specs::Formula::jacobian_at))]
pub fn jacobian_transform(m: &[f32; 16], x: Vec3) -> Mat3
    ensures { matrix_of result ≡ formula.jacobian floats (entries m.now) (point3 x) }
{
    let at = project_untested(m, x);
    Mat3 {
        c0: jacobian_column(m, 0, at),
        c1: jacobian_column(m, 1, at),
        c2: jacobian_column(m, 2, at),
    }
}

#[tactic(auto, unfolding(crate::specs::Formula::mult_mat3))]
pub fn mult_mat3_col_major(g: Vec3, j: Mat3) -> Vec3
    ensures { point3 result ≡ formula.mult_mat3 floats (point3 g) (matrix_of j) }
{
    Vec3 {
        x: rays::dot3(j.c0, g),
        y: rays::dot3(j.c1, g),
        z: rays::dot3(j.c2, g),
    }
}
