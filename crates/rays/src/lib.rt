// 01, "Ray and plane": the ray of a pixel, and where it meets a face's plane. Every function is total: values in, value out.
// No function here is a public call.
#![tactic(auto)]

ghost use Rattle.std.specs.Prelude.{◌≡◌, ◌≤◌};
ghost use Rattle.geometry.specs.Arith.{floats};
ghost use Rattle.geometry.specs.Answer.{point3, corners_of, weights_of};
ghost use Rattle.rays.specs.Space as space;
ghost use Rattle.rays.specs.Plane as plane;
ghost use Rattle.rays.specs.Pixel as pixel;
ghost use Rattle.rays.specs.Answer.{ray_of, pixel_ray_of};

use geometry::{Triangle, Vec3, Weights};

// A point of the world, and a vector from it on, of whatever length.
#[derive(Clone, Copy)]
pub struct Ray {
    pub org: Vec3,
    pub dir: Vec3,
}

#[tactic(auto, unfolding(crate::specs::Space::minus3))]
pub fn minus3(a: Vec3, b: Vec3) -> Vec3
    ensures { point3 result ≡ space.minus3 floats (point3 a) (point3 b) }
{
    Vec3 {
        x: a.x - b.x,
        y: a.y - b.y,
        z: a.z - b.z,
    }
}

#[tactic(auto, unfolding(crate::specs::Space::dot3))]
pub fn dot3(a: Vec3, b: Vec3) -> f32
    ensures { result ≡ space.dot3 floats (point3 a) (point3 b) }
{
    a.x * b.x + a.y * b.y + a.z * b.z
}

#[tactic(auto, unfolding(crate::specs::Space::cross3))]
pub fn cross3(a: Vec3, b: Vec3) -> Vec3
    ensures { point3 result ≡ space.cross3 floats (point3 a) (point3 b) }
{
    Vec3 {
        x: a.y * b.z - a.z * b.y,
        y: a.z * b.x - a.x * b.z,
        z: a.x * b.y - a.y * b.x,
    }
}

#[tactic(auto, unfolding(crate::specs::Space::scaled3))]
pub fn scaled3(k: f32, a: Vec3) -> Vec3
    ensures { point3 result ≡ space.scaled3 floats k (point3 a) }
{
    Vec3 {
        x: k * a.x,
        y: k * a.y,
        z: k * a.z,
    }
}

#[tactic(auto, unfolding(crate::specs::Space::along3))]
fn along3(r: Ray, t: f32) -> Vec3
    ensures { point3 result ≡ space.along3 floats (ray_of r) t }
{
    Vec3 {
        x: r.org.x + t * r.dir.x,
        y: r.org.y + t * r.dir.y,
        z: r.org.z + t * r.dir.z,
    }
}

// x of column ix's centre in an image w pixels wide, in normalised device coordinates: from −1 at the left edge to 1.
#[tactic(auto, using(crate::proofs::Two::two), unfolding(crate::specs::Pixel::column_at, crate::specs::Space::across))]
pub fn column_at(w: usize, ix: usize) -> f32
    requires w_bound { w ≤ 4096 }
    requires ix_bound { ix ≤ 4096 }
    ensures { result ≡ pixel.column_at w ix }
{
    2.0 * pixels::centre(ix) / pixels::as_float(w) - 1.0
}

// y of row iy's centre in an image h pixels high, in normalised device coordinates: from 1 at the upper edge to −1.
#[tactic(auto, using(crate::proofs::Two::two), unfolding(crate::specs::Pixel::row_at, crate::specs::Space::down))]
pub fn row_at(h: usize, iy: usize) -> f32
    requires h_bound { h ≤ 4096 }
    requires iy_bound { iy ≤ 4096 }
    ensures { result ≡ pixel.row_at h iy }
{
    1.0 - 2.0 * pixels::centre(iy) / pixels::as_float(h)
}

// The ray at (x, y) of the picture, in normalised device coordinates: from the point that m takes (x, y, 1) to, towards that of (x, y, −1); none where one of them has no answer.
#[tactic(auto, unfolding(crate::specs::Pixel::ray_at, crate::specs::Pixel::ray_between))]
pub fn ray_at(m: &[f32; 16], x: f32, y: f32) -> Option<Ray>
    ensures { pixel_ray_of result ≡ pixel.ray_at m.now x y }
{
    let near = geometry::project(m, Vec3 { x, y, z: 1.0 })?;
    let far = geometry::project(m, Vec3 { x, y, z: -1.0 })?;
    let org = near.p;
    let dir = minus3(far.p, org);
    Some(Ray { org, dir })
}

// A vector upright on the plane of three corners; its length is the doubled area of the triangle.
#[tactic(auto, unfolding(crate::specs::Plane::normal))]
pub fn normal(p: Triangle<Vec3>) -> Vec3
    ensures { point3 result ≡ plane.normal floats (corners_of p) }
{
    cross3(minus3(p.p1, p.p0), minus3(p.p2, p.p0))
}

// Where the ray meets the plane through p0 with the normal n.
#[tactic(auto, unfolding(crate::specs::Plane::hit, crate::specs::Plane::distance))]
fn hit(p0: Vec3, n: Vec3, r: Ray) -> Vec3
    ensures { point3 result ≡ plane.hit floats (point3 p0) (point3 n) (ray_of r) }
{
    along3(r, dot3(minus3(p0, r.org), n) / dot3(r.dir, n))
}

// The weight, without a unit, of a corner at q: the doubled area of q, p1, p2 over that of the three corners, whose normal is n.
#[tactic(auto, unfolding(crate::specs::Plane::weight))]
fn weight(n: Vec3, q: Vec3, p1: Vec3, p2: Vec3) -> f32
    ensures { result ≡ plane.weight floats (point3 n) (point3 q) (point3 p1) (point3 p2) }
{
    dot3(cross3(minus3(p1, q), minus3(p2, q)), n) / dot3(n, n)
}

// The three weights of a point q of the plane.
#[tactic(auto, unfolding(crate::specs::Plane::weights_at))]
fn weights_at(p: Triangle<Vec3>, n: Vec3, q: Vec3) -> Weights
    ensures { weights_of result ≡ plane.weights_at floats (corners_of p) (point3 n) (point3 q) }
{
    Weights {
        b0: weight(n, q, p.p1, p.p2),
        b1: weight(n, q, p.p2, p.p0),
        b2: weight(n, q, p.p0, p.p1),
    }
}

// The weights of the point where the ray meets the plane of the corners.
#[tactic(auto, unfolding(crate::specs::Plane::plane_weights, crate::specs::Plane::weights_on))]
pub fn plane_weights(p: Triangle<Vec3>, r: Ray) -> Weights
    ensures { weights_of result ≡ plane.plane_weights floats (corners_of p) (ray_of r) }
{
    let n = normal(p);
    weights_at(p, n, hit(p.p0, n, r))
}
