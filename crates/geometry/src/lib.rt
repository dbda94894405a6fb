// 01, "Leaves": the formulas that drawing, values and edges share. Every function is total: values in, value out.
#![tactic(auto)]

ghost use Rattle.std.specs.Prelude.{◌≡◌, ◌<◌};
ghost use Rattle.geometry.specs.Arith.{floats};
ghost use Rattle.geometry.specs.Formula as formula;
ghost use Rattle.geometry.specs.Vector as vector;
ghost use Rattle.std.specs.Float.Ieee.Scale as scale;
ghost use Rattle.geometry.specs.Leaf as leaf;
ghost use Rattle.geometry.specs.Answer.{point2, point3, weights_of, maybe_weights, corner_weights_of, projected_of, projection_of};

// A point or a vector of the plane, of the picture in pixels or in normalised device coordinates.
#[derive(Clone, Copy)]
pub struct Vec2 {
    pub x: f32,
    pub y: f32,
}

// A point or a vector of space, of the world in its unit or in normalised device coordinates, from −1 to 1 over the picture.
#[derive(Clone, Copy)]
pub struct Vec3 {
    pub x: f32,
    pub y: f32,
    pub z: f32,
}

// A projected point p, in normalised device coordinates, and the divisor w that it came from.
#[derive(Clone, Copy)]
pub struct Projected {
    pub p: Vec3,
    pub w: f32,
}

// Three corners of a face, in order.
#[derive(Clone, Copy)]
pub struct Triangle<P> {
    pub p0: P,
    pub p1: P,
    pub p2: P,
}

// A weight for each corner, a number without a unit; or, before they are divided, an area.
#[derive(Clone, Copy)]
pub struct Weights {
    pub b0: f32,
    pub b1: f32,
    pub b2: f32,
}

// Weights b, and the sum s of the areas that they are over: the doubled signed area of the triangle, in the square of its corners' unit.
#[derive(Clone, Copy)]
pub struct CornerWeights {
    pub b: Weights,
    pub s: f32,
}

// A point seen from the front: its first two coordinates.
pub fn flat(p: Vec3) -> Vec2
    ensures { point2 result ≡ vector.flat (point3 p) }
{
    Vec2 { x: p.x, y: p.y }
}

// Neither an infinity nor a NaN.
#[tactic(auto, using(crate::proofs::Tested::is_finite))]
pub fn finite(x: f32) -> bool
    ensures { result ≡ scale.finite x }
{
    x.is_finite()
}

// The doubled signed area of the triangle a, b, c, in the square of their unit: above 0 where they run counter-clockwise, with y upwards.
#[tactic(auto, unfolding(crate::specs::Formula::cross2))]
pub fn cross2(a: Vec2, b: Vec2, c: Vec2) -> f32
    ensures { result ≡ formula.cross2 floats (point2 a) (point2 b) (point2 c) }
{
    (b.x - a.x) * (c.y - a.y) - (b.y - a.y) * (c.x - a.x)
}

// The areas a over their sum s, none when s is 0 or not finite.
#[tactic(auto, unfolding(crate::specs::Leaf::weighed, crate::specs::Formula::over_total))]
pub fn weighed(a: Weights, s: f32) -> Option<Weights>
    ensures { maybe_weights result ≡ leaf.weighed (weights_of a) s }
{
    if !finite(s) || s == 0.0 {
        return None;
    }
    Some(Weights {
        b0: a.b0 / s,
        b1: a.b1 / s,
        b2: a.b2 / s,
    })
}

// The weights of q in a triangle, none where they have no answer.
#[tactic(auto, unfolding(crate::specs::Leaf::corner_weights, crate::specs::Leaf::weighed_with_sum, crate::specs::Leaf::weighed_all, crate::specs::Leaf::with_sum, crate::specs::Formula::areas, crate::specs::Formula::total))]
pub fn corner_weights(q: Vec2, t: Triangle<Vec2>) -> Option<CornerWeights>
    ensures { corner_weights_of result ≡ leaf.corner_weights (point2 q) (point2 t.p0) (point2 t.p1) (point2 t.p2) }
{
    let a = Weights {
        b0: cross2(q, t.p1, t.p2),
        b1: cross2(q, t.p2, t.p0),
        b2: cross2(q, t.p0, t.p1),
    };
    let s = a.b0 + a.b1 + a.b2;
    let b = weighed(a, s)?;
    Some(CornerWeights { b, s })
}

// One coordinate of a point from weights, in the corners' unit.
#[tactic(auto, unfolding(crate::specs::Formula::blend))]
pub fn blend(b: Weights, p0: f32, p1: f32, p2: f32) -> f32
    ensures { result ≡ formula.blend floats (weights_of b) p0 p1 p2 }
{
    b.b0 * p0 + b.b1 * p1 + b.b2 * p2
}

// Row r of the matrix, which lies column by column, times (x, 1).
#[tactic(auto, unfolding(crate::specs::Formula::row))]
pub fn row(m: &[f32; 16], r: usize, x: Vec3) -> f32
    requires { r < 4 }
    ensures { result ≡ formula.row floats (leaf.entries m.now) r (point3 x) }
{
    m[r] * x.x + m[4 + r] * x.y + m[8 + r] * x.z + m[12 + r]
}

// Rows 0 to 2 over a divisor, and the divisor.
#[tactic(auto, unfolding(crate::specs::Formula::over))]
pub fn over(m: &[f32; 16], x: Vec3, w: f32) -> Projected
    ensures { projected_of result ≡ formula.over floats (formula.row floats (leaf.entries m.now) 0 (point3 x))
        (formula.row floats (leaf.entries m.now) 1 (point3 x)) (formula.row floats (leaf.entries m.now) 2 (point3 x)) w }
{
    let p = Vec3 {
        x: row(m, 0, x) / w,
        y: row(m, 1, x) / w,
        z: row(m, 2, x) / w,
    };
    Projected { p, w }
}

// The point that the matrix takes x to, none where the divisor is 0.
#[tactic(auto, unfolding(crate::specs::Leaf::project, crate::specs::Leaf::divided))]
pub fn project(m: &[f32; 16], x: Vec3) -> Option<Projected>
    ensures { projection_of result ≡ leaf.project m.now (point3 x) }
{
    let w = row(m, 3, x);
    if w == 0.0 {
        return None;
    }
    Some(over(m, x, w))
}
