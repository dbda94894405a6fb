// A projected corner with its near-clip score, its tests, and where an edge meets the near plane. Every function is total: values in, value out.
// No function here is a public call.
#![tactic(auto)]

ghost use Rattle.std.specs.Prelude.{◌≡◌, ◌+◌};
ghost use Rattle.geometry.specs.Arith.{floats};
ghost use Rattle.geometry.specs.Answer.{point3, projected_of};
ghost use Rattle.rules.specs.Piece as rule;
ghost use Rattle.corners.specs.Answer.{corner_of};

use geometry::{Projected, Triangle, Vec3};

// A projected corner p, its divisor hw and its near-clip score c.
#[derive(Clone, Copy)]
pub struct Corner {
    pub p: Vec3,
    pub hw: f32,
    pub c: f32,
}

#[tactic(auto, unfolding(rules::specs::Piece::scored))]
pub fn scored(t11: f32, a: Projected) -> Corner
    ensures { corner_of result ≡ rule.scored floats t11 (projected_of a) }
{
    Corner {
        p: a.p,
        hw: a.w,
        c: a.w * (a.p.z - t11),
    }
}

// The corners of a face, each scored.
pub fn face_scored(t11: f32, t: Triangle<Projected>) -> Triangle<Corner>
    ensures first { corner_of result.p0 ≡ rule.scored floats t11 (projected_of t.p0) }
    ensures second { corner_of result.p1 ≡ rule.scored floats t11 (projected_of t.p1) }
    ensures third { corner_of result.p2 ≡ rule.scored floats t11 (projected_of t.p2) }
{
    Triangle {
        p0: scored(t11, t.p0),
        p1: scored(t11, t.p1),
        p2: scored(t11, t.p2),
    }
}

#[tactic(auto, unfolding(rules::specs::Piece::clip_t))]
fn clip_t(a: Corner, b: Corner) -> f32
    ensures { result ≡ rule.clip_t floats (corner_of a) (corner_of b) }
{
    a.c / (a.c - b.c)
}

#[tactic(auto, unfolding(rules::specs::Piece::hom_at))]
fn hom_at(a: Corner, b: Corner, t: f32, inv: f32, xa: f32, xb: f32) -> f32
    ensures { result ≡ rule.hom_at floats (corner_of a) (corner_of b) t inv xa xb }
{
    (xa * a.hw + t * (xb * b.hw - xa * a.hw)) * inv
}

#[tactic(auto, unfolding(rules::specs::Piece::interp_hom, rules::specs::Piece::hom_point))]
fn interp_hom(a: Corner, b: Corner, t: f32) -> Vec3
    ensures { point3 result ≡ rule.interp_hom floats (corner_of a) (corner_of b) t }
{
    let inv = 1.0 / (a.hw + t * (b.hw - a.hw));
    Vec3 {
        x: hom_at(a, b, t, inv, a.p.x, b.p.x),
        y: hom_at(a, b, t, inv, a.p.y, b.p.y),
        z: hom_at(a, b, t, inv, a.p.z, b.p.z),
    }
}

// Where the edge from a to b meets the near plane.
#[tactic(auto, unfolding(rules::specs::Piece::cut))]
pub fn cut(a: Corner, b: Corner) -> Vec3
    ensures { point3 result ≡ rule.cut floats (corner_of a) (corner_of b) }
{
    interp_hom(a, b, clip_t(a, b))
}

// At or beyond the near plane.
#[tactic(auto, unfolding(rules::specs::Piece::beyond_near))]
pub fn beyond_near(v: Corner) -> bool
    ensures { result ≡ rule.beyond_near (corner_of v) }
{
    v.c >= 0.0
}

// Between the camera and the near plane.
#[tactic(auto, unfolding(rules::specs::Piece::before_near))]
pub fn before_near(v: Corner) -> bool
    ensures { result ≡ rule.before_near (corner_of v) }
{
    v.c < 0.0
}

// How many corners of a face are beyond the near plane.
#[tactic(auto, unfolding(rules::specs::Piece::beyond_bit))]
pub fn beyond_count(t: Triangle<Corner>) -> u32
    ensures { result ≡ rule.beyond_bit (corner_of t.p0) + rule.beyond_bit (corner_of t.p1) + rule.beyond_bit (corner_of t.p2) }
{
    u32::from(beyond_near(t.p0)) + u32::from(beyond_near(t.p1)) + u32::from(beyond_near(t.p2))
}

#[tactic(auto, unfolding(rules::specs::Piece::all_beyond_near))]
pub fn all_beyond_near(t: Triangle<Corner>) -> bool
    ensures { result ≡ rule.all_beyond_near (corner_of t.p0) (corner_of t.p1) (corner_of t.p2) }
{
    beyond_near(t.p0) && beyond_near(t.p1) && beyond_near(t.p2)
}

#[tactic(auto, unfolding(rules::specs::Piece::all_before_near))]
pub fn all_before_near(t: Triangle<Corner>) -> bool
    ensures { result ≡ rule.all_before_near (corner_of t.p0) (corner_of t.p1) (corner_of t.p2) }
{
    before_near(t.p0) && before_near(t.p1) && before_near(t.p2)
}

#[tactic(auto, unfolding(rules::specs::Piece::behind))]
fn behind(t11: f32, v: Corner) -> bool
    ensures { result ≡ rule.behind t11 (corner_of v) }
{
    v.hw * t11 >= 0.0
}

#[tactic(auto, unfolding(rules::specs::Piece::any_behind))]
pub fn any_behind(t11: f32, t: Triangle<Corner>) -> bool
    ensures { result ≡ rule.any_behind t11 (corner_of t.p0) (corner_of t.p1) (corner_of t.p2) }
{
    behind(t11, t.p0) || behind(t11, t.p1) || behind(t11, t.p2)
}
