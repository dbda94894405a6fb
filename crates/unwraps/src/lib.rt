// Question 9: has `barycentric_world` an answer for each share of a pair, of an axis, of both? No function here is a public call.
#![tactic(auto)]

ghost use Rattle.std.specs.Prelude.{◌≡◌, true, ◌+◌, ◌&&◌, ◌||◌, ◌≤◌, ◌<◌};
ghost use Rattle.std.proofs.Math.Option.{some};
ghost use Rattle.geometry.specs.Answer.{point2};
ghost use Rattle.meshes.specs.Mesh.{project_face};
ghost use Rattle.meshes.specs.Answer.{face_of};
ghost use Rattle.inside.specs.Inside.{all_inside, contains, present};
ghost use Rattle.pairs.specs.Pairs.{answered, all_answered, both_answered};
ghost use Rattle.pairs.specs.Steps.{Within, row_passes};
ghost use Rattle.pairs.specs.Answer.{axis_of, edge_of, seen_of};
ghost use Rattle.tris.specs.Weights.{world_in};
ghost use Rattle.tris.specs.Answer.{projected_in};
ghost use Rattle.tris.specs.Tri.{Projects};
ghost use Rattle.share_rules.specs.Shares.{between};
ghost use Rattle.share_rules.specs.Sides.{SidesProject, shares_of};
ghost use Rattle.unwraps.specs.Unwraps.{weighable_all, unwraps, all_unwraps, both_unwrap};
ghost use Rattle.unwraps.specs.Steps.{crossing_answered};

use geometry::Vec2;
use meshes::{Mesh, View};
use pixels::{Axis, Pixel};
use share_rules::{AxisPairs, PixelFace, Sides};
use tris::Tri;

// Have both faces their weights?
fn both_weigh(t0: Tri, t1: Tri, q0: Vec2, q1: Vec2) -> bool
    ensures { result ≡ (present (world_in (point2 q0) (some (projected_in t0))) && present (world_in (point2 q1) (some (projected_in t1)))) }
{
    t0.has_world(q0) && t1.has_world(q1)
}

// Question 9 of an intersection. The weights come first: where both are there, the normals need no root.
#[tactic(auto, using(crate::proofs::Cases::either), unfolding(crate::specs::Steps::crossing_answered))]
fn crossing_ok(axis: Axis, t0: Tri, t1: Tri, q0: Vec2, q1: Vec2) -> bool
    ensures { result ≡ crossing_answered axis.down (projected_in t0) (projected_in t1) (point2 q0) (point2 q1) }
{
    both_weigh(t0, t1, q0, q1) || crossings::skipped(axis, t0.unormal_pix(), t1.unormal_pix())
}

// Question 9 of a face beside an empty pixel, whose centre is `other`.
fn beside_empty_ok(mesh: &Mesh, m: &[f32; 16], own: PixelFace, other: Vec2) -> bool
    requires { Projects m.now mesh.now.vtx2xyz.now (face_of own.face) }
    ensures { result ≡ (contains all_inside m.now mesh.now.vtx2xyz.now (some (face_of own.face)) (point2 other)
        || present (world_in (point2 own.centre) (project_face m.now mesh.now.vtx2xyz.now (face_of own.face)))) }
{
    let t = Tri::new(mesh, m, own.face);
    t.is_inside(other) || t.has_world(own.centre)
}

// Question 9 of two faces.
fn between_ok(mesh: &Mesh, m: &[f32; 16], axis: Axis, first: PixelFace, second: PixelFace) -> bool
    requires first { Projects m.now mesh.now.vtx2xyz.now (face_of first.face) }
    requires second { Projects m.now mesh.now.vtx2xyz.now (face_of second.face) }
    ensures { result ≡ weighable_all m.now mesh.now.vtx2xyz.now
        (between axis.down m.now mesh.now.vtx2xyz.now (some (face_of first.face)) (some (face_of second.face))
        (point2 first.centre) (point2 second.centre)) }
{
    let t0 = Tri::new(mesh, m, first.face);
    let t1 = Tri::new(mesh, m, second.face);
    match (t1.is_inside(first.centre), t0.is_inside(second.centre)) {
        (true, true) => crossing_ok(axis, t0, t1, first.centre, second.centre),
        (true, false) => t0.has_world(first.centre),
        (false, true) => t1.has_world(second.centre),
        (false, false) => true,
    }
}

// Question 9 of a pair whose entries are not equal, of any mesh: it asks no map.
#[tactic(auto, using(crate::proofs::Cases::beside_weighs), unfolding(crate::specs::Unwraps::weighable_all))]
pub fn unequal_ok(mesh: &Mesh, m: &[f32; 16], axis: Axis, sides: Sides) -> bool
    requires { SidesProject m.now mesh.now.vtx2xyz.now sides }
    ensures { result ≡ weighable_all m.now mesh.now.vtx2xyz.now
        (shares_of axis.down m.now mesh.now.vtx2xyz.now sides) }
{
    match sides {
        Sides::Both(first, second) => between_ok(mesh, m, axis, first, second),
        Sides::Beside(own, other) => beside_empty_ok(mesh, m, own, other),
        Sides::Neither => true,
    }
}

// Question 9 of the pair whose first pixel is p.
#[tactic(auto, using(crate::proofs::Cases::equal_unwraps))]
fn pair_ok(pairs: &AxisPairs, p: Pixel) -> bool
    requires within { Within pairs.now.view.size.w pairs.now.view.size.h pairs.now.axis.right pairs.now.axis.down p.x p.y }
    requires answered { answered (seen_of pairs.now.view) (edge_of pairs.now.axis p) ≡ true }
    ensures { result ≡ unwraps (axis_of pairs.now.axis) (seen_of pairs.now.view) (edge_of pairs.now.axis p) }
{
    match pairs.unequal(p) {
        Some(pair) => unequal_ok(&pairs.view.mesh, pairs.view.m, pairs.axis, pair.sides),
        None => true,
    }
}

// Question 9 of the pairs whose first pixels lie in row y.
fn row_ok(pairs: &AxisPairs, y: usize) -> bool
    requires columns { pairs.now.axis.right ≤ pairs.now.view.size.w }
    requires in_column { y + pairs.now.axis.down < pairs.now.view.size.h }
    requires answered { all_answered (axis_of pairs.now.axis) pairs.now.view.size.h (seen_of pairs.now.view) ≡ true }
    ensures { result ≡ row_passes (unwraps (axis_of pairs.now.axis) (seen_of pairs.now.view)) (axis_of pairs.now.axis) pairs.now.view.size.w y }
{
    (0..pairs.view.size.w - pairs.axis.right).all(|x| pair_ok(pairs, Pixel { x, y }))
}

// Question 9 of an axis, row by row.
fn all_ok(pairs: &AxisPairs) -> bool
    requires columns { pairs.now.axis.right ≤ pairs.now.view.size.w }
    requires rows { pairs.now.axis.down ≤ pairs.now.view.size.h }
    requires answered { all_answered (axis_of pairs.now.axis) pairs.now.view.size.h (seen_of pairs.now.view) ≡ true }
    ensures { result ≡ all_unwraps (axis_of pairs.now.axis) pairs.now.view.size.h (seen_of pairs.now.view) }
{
    (0..pairs.view.size.h - pairs.axis.down).all(|y| row_ok(pairs, y))
}

// Question 9 of both axes, once question 8 is answered yes.
#[tactic(auto, using(lists::specs::Laws::Tests::both))]
pub fn both_ok(view: &View) -> bool
    requires { both_answered view.now.size.h (seen_of view.now) ≡ true }
    ensures { result ≡ both_unwrap view.now.size.h (seen_of view.now) }
{
    let hedges = AxisPairs {
        view: *view,
        axis: Axis::HEDGE,
    };
    let vedges = AxisPairs {
        view: *view,
        axis: Axis::VEDGE,
    };
    all_ok(&hedges) && all_ok(&vedges)
}
