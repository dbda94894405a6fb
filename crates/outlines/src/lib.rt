// 02, Point 1: an outline edge in the picture: the pixels that it covers, their pairs, and where it crosses the way between a pair's centres. Values in, value
// out. No function here is a public call.
#![tactic(auto)]

ghost use Rattle.std.specs.Prelude.{◌≡◌, ◌+◌, ◌-◌, ◌≤◌, ◌<◌};
ghost use Rattle.geometry.specs.Arith.{floats};
ghost use Rattle.geometry.specs.Answer.{point2};
ghost use Rattle.pixels.specs.Answer.{axis_of};
ghost use Rattle.outlines.specs.Formula as formula;
ghost use Rattle.outlines.specs.Leaf as leaf;
ghost use Rattle.outlines.specs.Covered as covered;
ghost use Rattle.outlines.specs.Neighbours as neighbours;
ghost use Rattle.outlines.specs.Answer.{ends_of, crossing_in, maybe_crossing, pixel_of};

use geometry::Vec2;
use pixels::{Axis, Pixel};

// An edge in the picture, in pixels from its left and upper edge: the projections of its two vertices.
#[derive(Clone, Copy)]
pub struct Ends {
    pub q0: Vec2,
    pub q1: Vec2,
}

// A crossing: rc is its place on the way between two centres, from 0 to 1, re its place on the edge from q1 to q0, and both are over d, an area in pixels.
#[derive(Clone, Copy)]
pub struct Crossing {
    pub d: f32,
    pub rc: f32,
    pub re: f32,
}

#[tactic(auto, unfolding(crate::specs::Formula::minus2))]
fn minus2(a: Vec2, b: Vec2) -> Vec2
    ensures { point2 result ≡ formula.minus2 floats (point2 a) (point2 b) }
{
    Vec2 {
        x: a.x - b.x,
        y: a.y - b.y,
    }
}

// a×b.
#[tactic(auto, unfolding(crate::specs::Formula::perp_dot))]
fn perp_dot(a: Vec2, b: Vec2) -> f32
    ensures { result ≡ formula.perp_dot floats (point2 a) (point2 b) }
{
    a.x * b.y - a.y * b.x
}

#[tactic(auto, unfolding(crate::specs::Formula::scaled2))]
fn scaled2(k: f32, a: Vec2) -> Vec2
    ensures { point2 result ≡ formula.scaled2 floats k (point2 a) }
{
    Vec2 {
        x: k * a.x,
        y: k * a.y,
    }
}

// Is d a divisor, and are rc and re on both ways?
#[tactic(auto, unfolding(crate::specs::Leaf::crosses))]
fn crosses(k: Crossing) -> bool
    ensures { result ≡ leaf.crosses (crossing_in k) }
{
    if k.d == 0.0 || k.d.is_nan() {
        return false;
    }
    0.0 <= k.rc && k.rc < 1.0 && 0.0 <= k.re && k.re <= 1.0
}

// Where the edge crosses the way from the centre c0 to the centre c1, if it does.
#[tactic(auto, unfolding(crate::specs::Leaf::crossing_between, crate::specs::Leaf::if_crosses, crate::specs::Formula::crossing_of, crate::specs::Formula::crossing_from))]
pub fn crossing_between(c0: Vec2, c1: Vec2, e: Ends) -> Option<Crossing>
    ensures { maybe_crossing result ≡ leaf.crossing_between (point2 c0) (point2 c1) (ends_of e) }
{
    let u = minus2(c1, c0);
    let v = minus2(e.q0, e.q1);
    let s = minus2(e.q1, c0);
    let d = perp_dot(u, v);
    let k = Crossing {
        d,
        rc: perp_dot(s, v) / d,
        re: perp_dot(s, u) / d,
    };
    if crosses(k) { Some(k) } else { None }
}

// How the crossing's rc moves with the edge's ends, times its incoming gradient.
#[tactic(auto, unfolding(crate::specs::Formula::crossing_gradient))]
fn crossing_gradient(dldr: f32, v: Vec2, d: f32) -> Vec2
    ensures { point2 result ≡ formula.crossing_gradient floats dldr (point2 v) d }
{
    Vec2 {
        x: dldr * v.y / d,
        y: dldr * -v.x / d,
    }
}

#[tactic(auto, unfolding(crate::specs::Formula::crossing_backward, crate::specs::Formula::end_shares))]
pub fn crossing_backward(e: Ends, k: Crossing, dldr: f32) -> Ends
    ensures { ends_of result ≡ formula.crossing_backward floats (ends_of e) (crossing_in k) dldr }
{
    let g = crossing_gradient(dldr, minus2(e.q0, e.q1), k.d);
    Ends {
        q0: scaled2(k.re, g),
        q1: scaled2(1.0 - k.re, g),
    }
}

// r0 of the first value and the rest of the second.
#[tactic(auto, unfolding(crate::specs::Formula::mixed))]
pub fn mixed(r0: f32, a: f32, b: f32) -> f32
    ensures { result ≡ formula.mixed floats r0 a b }
{
    r0 * a + (1.0 - r0) * b
}

// Is a coordinate NaN?
#[tactic(auto, unfolding(crate::specs::Covered::has_nan))]
pub fn has_nan(e: Ends) -> bool
    ensures { result ≡ covered.has_nan (ends_of e) }
{
    e.q0.x.is_nan() || e.q0.y.is_nan() || e.q1.x.is_nan() || e.q1.y.is_nan()
}

// Along one axis, does what lies from a to b, either first, meet the side from i to i + 1?
#[tactic(auto, unfolding(crate::specs::Covered::meets_side))]
fn meets_side(a: f32, b: f32, i: usize) -> bool
    requires { i < 4096 }
    ensures { result ≡ covered.meets_side a b i }
{
    let low = pixels::as_float(i);
    let high = pixels::as_float(i + 1);
    (a <= high || b <= high) && (low <= a || low <= b)
}

// The side of the edge on which the corner in column x and row y lies: above 0, below 0, or on it.
#[tactic(auto, unfolding(crate::specs::Covered::side_of))]
fn side_of(e: Ends, x: usize, y: usize) -> f32
    requires column { x ≤ 4096 }
    requires row { y ≤ 4096 }
    ensures { result ≡ covered.side_of (ends_of e) x y }
{
    let corner = Vec2 {
        x: pixels::as_float(x),
        y: pixels::as_float(y),
    };
    geometry::cross2(e.q0, e.q1, corner)
}

// Are the corners in column x and rows y and y + 1 both above 0?
#[tactic(auto, unfolding(crate::specs::Covered::above_at))]
pub fn above_at(e: Ends, x: usize, y: usize) -> bool
    requires column { x ≤ 4096 }
    requires row { y < 4096 }
    ensures { result ≡ covered.above_at (ends_of e) x y }
{
    0.0 < side_of(e, x, y) && 0.0 < side_of(e, x, y + 1)
}

// Are they both below 0?
#[tactic(auto, unfolding(crate::specs::Covered::below_at))]
pub fn below_at(e: Ends, x: usize, y: usize) -> bool
    requires column { x ≤ 4096 }
    requires row { y < 4096 }
    ensures { result ≡ covered.below_at (ends_of e) x y }
{
    side_of(e, x, y) < 0.0 && side_of(e, x, y + 1) < 0.0
}

#[tactic(auto, unfolding(crate::specs::Covered::parts_corners))]
fn parts_corners(e: Ends, p: Pixel) -> bool
    requires column { p.x < 4096 }
    requires row { p.y < 4096 }
    ensures { result ≡ covered.parts_corners (ends_of e) (pixel_of p) }
{
    let all_above = above_at(e, p.x, p.y) && above_at(e, p.x + 1, p.y);
    let all_below = below_at(e, p.x, p.y) && below_at(e, p.x + 1, p.y);
    !all_above && !all_below
}

#[tactic(auto, unfolding(crate::specs::Covered::covers, crate::specs::Covered::meets_square))]
pub fn covers(e: Ends, p: Pixel) -> bool
    requires column { p.x < 4096 }
    requires row { p.y < 4096 }
    ensures { result ≡ covered.covers (ends_of e) (pixel_of p) }
{
    !has_nan(e)
        && meets_side(e.q0.x, e.q1.x, p.x)
        && meets_side(e.q0.y, e.q1.y, p.y)
        && parts_corners(e, p)
}

// Does the edge go farther down than across?
#[tactic(auto, unfolding(crate::specs::Neighbours::is_steep))]
fn is_steep(e: Ends) -> bool
    ensures { result ≡ neighbours.is_steep (ends_of e) }
{
    (e.q1.x - e.q0.x).abs() < (e.q1.y - e.q0.y).abs()
}

// The axis along which an edge's pixels have their neighbours: beside them where it goes farther down than across, else above and below.
#[tactic(auto, unfolding(crate::specs::Neighbours::pair_axis))]
pub fn pair_axis(e: Ends) -> Axis
    ensures axis { axis_of result ≡ neighbours.pair_axis (ends_of e) }
    ensures right { result.right ≤ 1 }
    ensures down { result.down ≤ 1 }
{
    if is_steep(e) {
        Axis::VEDGE
    } else {
        Axis::HEDGE
    }
}

// The pixel before p along an axis.
pub fn before(axis: Axis, p: Pixel) -> Pixel
    requires right { axis.right ≤ p.x }
    requires down { axis.down ≤ p.y }
    ensures pixel { pixel_of result ≡ neighbours.before (axis_of axis) (pixel_of p) }
    ensures column { result.x ≡ p.x - axis.right }
    ensures row { result.y ≡ p.y - axis.down }
{
    Pixel {
        x: p.x - axis.right,
        y: p.y - axis.down,
    }
}

// The pixel after p.
pub fn after(axis: Axis, p: Pixel) -> Pixel
    requires columns { p.x + axis.right < 4096 }
    requires rows { p.y + axis.down < 4096 }
    ensures pixel { pixel_of result ≡ neighbours.after (axis_of axis) (pixel_of p) }
    ensures column { result.x ≡ p.x + axis.right }
    ensures row { result.y ≡ p.y + axis.down }
{
    Pixel {
        x: p.x + axis.right,
        y: p.y + axis.down,
    }
}
