// Question 9 asked of pixels and not of pairs. A share lies at its own pixel's centre: where every pixel that has an unequal neighbour has
// its weights there, both axes are answered yes, in one pass by rows. Where one has none, the pairs are asked one by one.
// No function here is a public call.
#![tactic(auto)]

ghost use Rattle.std.specs.Prelude.{◌≡◌, true, ℕ, ◌≤◌, ◌<◌, IfSome};
ghost use Rattle.geometry.specs.Answer.{point2};
ghost use Rattle.meshes.specs.Answer.{face_of, maybe_face};
ghost use Rattle.inside.specs.Steps.{all_project};
ghost use Rattle.pairs.specs.Pairs.{both_answered};
ghost use Rattle.pairs.specs.Steps.{Within};
ghost use Rattle.pairs.specs.Answer.{edge_of, seen_of};
ghost use Rattle.tris.specs.Tri.{Projects};
ghost use Rattle.unwraps.specs.Unwraps.{both_unwrap};
ghost use Rattle.pixel_unwraps.specs.Steps.{equal_at, LikeNext, LikePrevious, LikeAllNeighbours, weighs_of, WeighsOrInner};

use geometry::Vec2;
use meshes::{Face, View};
use pixels::{Axis, Pixel};
use tris::Tri;

// Are the entries of the pair whose first pixel is p equal?
fn equal_pair(view: &View, p: Pixel, axis: Axis) -> bool
    requires { Within view.now.size.w view.now.size.h axis.right axis.down p.x p.y }
    ensures { result ≡ equal_at view.now.pix2tri.now view.now.size.w (edge_of axis p) }
{
    let pair = pairs::pair_at(view.size, view.pix2tri, p, axis);
    pair.first == pair.second
}

// Is the pixel p like the next one, where there is one?
fn like_next(view: &View, p: Pixel, axis: Axis) -> bool
    requires columns { axis.right ≤ view.now.size.w }
    requires rows { axis.down ≤ view.now.size.h }
    requires in_row { p.x < view.now.size.w }
    requires in_column { p.y < view.now.size.h }
    ensures { result ≡ true → LikeNext view.now.pix2tri.now view.now.size.w view.now.size.h p.x p.y axis.right axis.down }
{
    view.size.w <= p.x + axis.right || view.size.h <= p.y + axis.down || equal_pair(view, p, axis)
}

// Is it like the one before?
fn like_previous(view: &View, p: Pixel, axis: Axis) -> bool
    requires in_row { p.x < view.now.size.w }
    requires in_column { p.y < view.now.size.h }
    ensures { result ≡ true → LikePrevious view.now.pix2tri.now view.now.size.w p.x p.y axis.right axis.down }
{
    if p.x < axis.right || p.y < axis.down {
        return true;
    }
    let before = Pixel {
        x: p.x - axis.right,
        y: p.y - axis.down,
    };
    equal_pair(view, before, axis)
}

// Is it like all its neighbours?
fn like_all_neighbours(view: &View, p: Pixel) -> bool
    requires in_row { p.x < view.now.size.w }
    requires in_column { p.y < view.now.size.h }
    ensures { result ≡ true → LikeAllNeighbours view.now.pix2tri.now view.now.size.w view.now.size.h p.x p.y }
{
    like_next(view, p, Axis::VEDGE)
        && like_next(view, p, Axis::HEDGE)
        && like_previous(view, p, Axis::VEDGE)
        && like_previous(view, p, Axis::HEDGE)
}

// Has what a pixel shows its weights at q? Where it shows nothing, it needs none.
#[tactic(auto, unfolding(crate::specs::Steps::weighs_of))]
fn shown_weighs(view: &View, shown: Option<Face>, q: Vec2) -> bool
    requires { IfSome shown (λ f. Projects view.now.m.now view.now.mesh.vtx2xyz.now (face_of f)) }
    ensures { result ≡ weighs_of view.now.m.now view.now.mesh.vtx2xyz.now (maybe_face shown) (point2 q) }
{
    match shown {
        Some(f) => Tri::new(&view.mesh, view.m, f).has_world(q),
        None => true,
    }
}

// Has the pixel p its weights, or needs it none, being like all its neighbours?
fn weighs_or_inner(view: &View, p: Pixel) -> bool
    requires projected { all_project view.now.m.now view.now.mesh.vtx2xyz.now ≡ true }
    requires in_row { p.x < view.now.size.w }
    requires in_column { p.y < view.now.size.h }
    ensures { result ≡ true
        → WeighsOrInner view.now.mesh.tri2vtx.now view.now.pix2tri.now view.now.m.now view.now.mesh.vtx2xyz.now view.now.size.w view.now.size.h p.x p.y }
{
    if like_all_neighbours(view, p) {
        return true;
    }
    let shown = view.mesh.named(view.entry(p));
    shown_weighs(view, shown, pixels::centre_of(p))
}

// All pixels of row y. (A loop, as below: `bwd` took 1.1 of its time with the library's `all`.)
fn row_weighs_or_inner(view: &View, y: usize) -> bool
    requires projected { all_project view.now.m.now view.now.mesh.vtx2xyz.now ≡ true }
    requires in_column { y < view.now.size.h }
    ensures { result ≡ true → (x : ℕ) → x < view.now.size.w
        → WeighsOrInner view.now.mesh.tri2vtx.now view.now.pix2tri.now view.now.m.now view.now.mesh.vtx2xyz.now view.now.size.w view.now.size.h x y }
{
    for x in 0..view.size.w {
        if !weighs_or_inner(view, Pixel { x, y }) {
            return false;
        }
    }
    true
}

// All rows. What a row's pixels share is worked out once for the row.
fn all_weigh_or_inner(view: &View) -> bool
    requires { all_project view.now.m.now view.now.mesh.vtx2xyz.now ≡ true }
    ensures { result ≡ true → (y : ℕ) → y < view.now.size.h → (x : ℕ) → x < view.now.size.w
        → WeighsOrInner view.now.mesh.tri2vtx.now view.now.pix2tri.now view.now.m.now view.now.mesh.vtx2xyz.now view.now.size.w view.now.size.h x y }
{
    for y in 0..view.size.h {
        if !row_weighs_or_inner(view, y) {
            return false;
        }
    }
    true
}

// Are questions 8 and 9 quickly seen to be answered yes?
pub fn quickly_answered(view: &View) -> bool
    ensures { result ≡ true
        → (both_answered view.now.size.h (seen_of view.now) ≡ true) × (both_unwrap view.now.size.h (seen_of view.now) ≡ true) }
{
    inside::all_project(view.mesh.vtx2xyz, view.m) && all_weigh_or_inner(view)
}
