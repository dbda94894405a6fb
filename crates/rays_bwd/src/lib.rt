// 01, "Ray and plane", the way back: the corners' shares of the gradients of t, u and v. Every function is total: values in, value out.
// No function here is a public call.
#![tactic(auto)]

ghost use Rattle.std.specs.Prelude.{◌≡◌};
ghost use Rattle.geometry.specs.Arith.{floats};
ghost use Rattle.geometry.specs.Answer.{point3, corners_of, weights_of};
ghost use Rattle.rays.specs.Space as space;
ghost use Rattle.rays.specs.Answer.{ray_of};
ghost use Rattle.rays_bwd.specs.Backward as backward;
ghost use Rattle.rays_bwd.specs.Answer.{frame_from, gradients_of};

use geometry::{Triangle, Vec3, Weights};
use rays::Ray;

// e1×e2, e2×d, d×e1 and D of the backward formula.
#[derive(Clone, Copy)]
pub struct Frame {
    pub e1e2: Vec3,
    pub e2d: Vec3,
    pub de1: Vec3,
    pub det: f32,
}

// The weights 1−u−v, u, v, and each corner's share.
#[derive(Clone, Copy)]
pub struct Gradients {
    pub bc: Weights,
    pub to: Triangle<Vec3>,
}

#[tactic(auto, unfolding(crate::specs::Backward::framed))]
fn framed(d: Vec3, e1: Vec3, e2: Vec3) -> Frame
    ensures { frame_from result ≡ backward.framed floats (point3 d) (point3 e1) (point3 e2) }
{
    let e1e2 = rays::cross3(e1, e2);
    Frame {
        e1e2,
        e2d: rays::cross3(e2, d),
        de1: rays::cross3(d, e1),
        det: rays::dot3(d, e1e2),
    }
}

#[tactic(auto, unfolding(crate::specs::Backward::frame_of))]
fn frame_of(p: Triangle<Vec3>, r: Ray) -> Frame
    ensures { frame_from result ≡ backward.frame_of floats (corners_of p) (ray_of r) }
{
    framed(r.dir, rays::minus3(p.p1, p.p0), rays::minus3(p.p2, p.p0))
}

// u or v: f is the product that it is made of.
fn meets(f: Vec3, det: f32, s: Vec3) -> f32
    ensures { result ≡ floats.div (floats.neg (space.dot3 floats (point3 s) (point3 f))) det }
{
    -rays::dot3(s, f) / det
}

#[tactic(auto, unfolding(crate::specs::Backward::weighted))]
fn weighted(u: f32, v: f32) -> Weights
    ensures { weights_of result ≡ backward.weighted floats u v }
{
    Weights {
        b0: 1.0 - u - v,
        b1: u,
        b2: v,
    }
}

#[tactic(auto, unfolding(crate::specs::Backward::gradient_on))]
fn gradient_on(dt: f32, du: f32, dv: f32, det: f32, e1e2: f32, e2d: f32, de1: f32) -> f32
    ensures { result ≡ backward.gradient_on floats dt du dv det e1e2 e2d de1 }
{
    (dt * e1e2 - du * e2d - dv * de1) / det
}

#[tactic(auto, unfolding(crate::specs::Backward::gradient))]
fn gradient(f: Frame, dt: f32, du: f32, dv: f32) -> Vec3
    ensures { point3 result ≡ backward.gradient floats (frame_from f) dt du dv }
{
    Vec3 {
        x: gradient_on(dt, du, dv, f.det, f.e1e2.x, f.e2d.x, f.de1.x),
        y: gradient_on(dt, du, dv, f.det, f.e1e2.y, f.e2d.y, f.de1.y),
        z: gradient_on(dt, du, dv, f.det, f.e1e2.z, f.e2d.z, f.de1.z),
    }
}

#[tactic(auto, unfolding(crate::specs::Backward::shared, crate::specs::Backward::shares))]
fn shared(bc: Weights, g: Vec3) -> Gradients
    ensures { gradients_of result ≡ backward.shared floats (weights_of bc) (point3 g) }
{
    let to = Triangle {
        p0: rays::scaled3(bc.b0, g),
        p1: rays::scaled3(bc.b1, g),
        p2: rays::scaled3(bc.b2, g),
    };
    Gradients { bc, to }
}

#[tactic(auto, unfolding(crate::specs::Backward::backward_on, crate::specs::Backward::meets_u, crate::specs::Backward::meets_v))]
fn backward_on(f: Frame, s: Vec3, dt: f32, du: f32, dv: f32) -> Gradients
    ensures { gradients_of result ≡ backward.backward_on floats (frame_from f) (point3 s) dt du dv }
{
    let u = meets(f.e2d, f.det, s);
    let v = meets(f.de1, f.det, s);
    shared(weighted(u, v), gradient(f, dt, du, dv))
}

// The corners' shares of the incoming gradients dt, du, dv of t, u and v.
#[tactic(auto, unfolding(crate::specs::Backward::plane_backward))]
pub fn plane_backward(p: Triangle<Vec3>, r: Ray, dt: f32, du: f32, dv: f32) -> Gradients
    ensures { gradients_of result ≡ backward.plane_backward floats (corners_of p) (ray_of r) dt du dv }
{
    backward_on(frame_of(p, r), rays::minus3(p.p0, r.org), dt, du, dv)
}
