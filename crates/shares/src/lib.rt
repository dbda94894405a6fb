// What one pair adds: the shares of two faces, or of one beside an empty pixel. No function here is a public call.
#![tactic(auto)]

ghost use Rattle.std.specs.Prelude.{◌≡◌, true, ◌*◌, ◌/◌, ◌<◌, length};
ghost use Rattle.std.proofs.Math.Option.{some};
ghost use mathlib.Core.List.{flat_map};
ghost use Rattle.geometry.specs.Answer.{point2};
ghost use Rattle.meshes.specs.Mesh.{Among};
ghost use Rattle.meshes.specs.Answer.{face_of};
ghost use Rattle.meshes.specs.Sums.{summed};
ghost use Rattle.pairs.specs.Pairs.{answered};
ghost use Rattle.pairs.specs.Steps.{Within};
ghost use Rattle.pairs.specs.Answer.{axis_of, edge_of, seen_of};
ghost use Rattle.pairs.specs.Values.{values_of};
ghost use Rattle.tris.specs.Answer.{corners_in, projected_in};
ghost use Rattle.tris.specs.Tri.{Projects};
ghost use Rattle.share_rules.specs.Shares.{between};
ghost use Rattle.share_rules.specs.Additions.{additions_of, pair_additions};
ghost use Rattle.share_rules.specs.Steps.{beside_empty};
ghost use Rattle.shares.specs.Steps.{given_crossing};

use geometry::Vec2;
use pairs::PixelValues;
use pixels::{Axis, Pixel};
use share_rules::{AxisPairs, PixelFace, Sides};
use tris::Tri;

// An intersection's two shares, each from its own `Tri` and centre. (Eight parameters: a struct of two of each would have no other use.)
#[tactic(auto, using(meshes::specs::Laws::summed_then), unfolding(crate::specs::Steps::given_crossing, crate::specs::Steps::given_both, meshes::specs::Sums::summed))]
fn scatter_intersection_gradient(
    sums: &mut [f32],
    m: &[f32; 16],
    axis: Axis,
    first: PixelFace,
    second: PixelFace,
    t0: Tri,
    t1: Tri,
    d: f32,
)
    requires first { Among (length sums.old / 3) (face_of first.face) }
    requires second { Among (length sums.old / 3) (face_of second.face) }
    ensures { sums.new ≡ summed sums.old (given_crossing m.now axis.down d (face_of first.face) (face_of second.face)
        (corners_in t0) (corners_in t1) (projected_in t0) (projected_in t1) (point2 first.centre) (point2 second.centre)) }
{
    let n0 = t0.unormal_pix();
    let n1 = t1.unormal_pix();
    if crossings::skipped(axis, n0, n1) {
        return;
    }
    let g0 = crossings::g_pix(d, crossings::coefficient0(axis, n0, n1), n0);
    scattering::scatter(sums, m, first.face, t0, first.centre, g0);
    let g1 = crossings::g_pix(d, crossings::coefficient1(axis, n0, n1), n1);
    scattering::scatter(sums, m, second.face, t1, second.centre, g1);
}

// A face beside an empty pixel, whose centre is `other`.
fn scatter_beside_empty(sums: &mut [f32], pairs: &AxisPairs, own: PixelFace, other: Vec2, d: f32)
    requires projects { Projects pairs.now.view.m.now pairs.now.view.mesh.vtx2xyz.now (face_of own.face) }
    requires lent { length sums.old ≡ length pairs.now.view.mesh.vtx2xyz.now }
    ensures { sums.new ≡ summed sums.old (flat_map (additions_of pairs.now.view.m.now pairs.now.view.mesh.vtx2xyz.now d)
        (beside_empty pairs.now.axis.down pairs.now.view.m.now pairs.now.view.mesh.vtx2xyz.now (face_of own.face) (point2 own.centre) (point2 other))) }
{
    let m = pairs.view.m;
    let t = Tri::new(&pairs.view.mesh, m, own.face);
    if t.is_inside(other) {
        return;
    }
    let g = crossings::along(pairs.axis, d);
    scattering::scatter(sums, m, own.face, t, own.centre, g);
}

// Two faces, by which of the two centres lies inside the other's face: mostly neither does, and no more is worked out.
fn scatter_between(sums: &mut [f32], pairs: &AxisPairs, first: PixelFace, second: PixelFace, d: f32)
    requires first { Projects pairs.now.view.m.now pairs.now.view.mesh.vtx2xyz.now (face_of first.face) }
    requires second { Projects pairs.now.view.m.now pairs.now.view.mesh.vtx2xyz.now (face_of second.face) }
    requires lent { length sums.old ≡ length pairs.now.view.mesh.vtx2xyz.now }
    ensures { sums.new ≡ summed sums.old (flat_map (additions_of pairs.now.view.m.now pairs.now.view.mesh.vtx2xyz.now d)
        (between pairs.now.axis.down pairs.now.view.m.now pairs.now.view.mesh.vtx2xyz.now (some (face_of first.face)) (some (face_of second.face))
        (point2 first.centre) (point2 second.centre))) }
{
    let mesh = &pairs.view.mesh;
    let m = pairs.view.m;
    if inside::face_contains(mesh, m, second.face, first.centre) {
        let t0 = Tri::new(mesh, m, first.face);
        if t0.is_inside(second.centre) {
            let t1 = Tri::new(mesh, m, second.face);
            scatter_intersection_gradient(sums, m, pairs.axis, first, second, t0, t1, d);
        } else {
            let g = crossings::along(pairs.axis, d);
            scattering::scatter(sums, m, first.face, t0, first.centre, g);
        }
    } else if inside::face_contains(mesh, m, first.face, second.centre) {
        let t1 = Tri::new(mesh, m, second.face);
        let g = crossings::along(pairs.axis, d);
        scattering::scatter(sums, m, second.face, t1, second.centre, g);
    }
}

// What the pair whose first pixel is p adds.
#[tactic(auto, using(crate::proofs::Cases::equal_adds))]
pub fn scatter_pair(sums: &mut [f32], pairs: &AxisPairs, values: &PixelValues, p: Pixel)
    requires within { Within pairs.now.view.size.w pairs.now.view.size.h pairs.now.axis.right pairs.now.axis.down p.x p.y }
    requires answered { answered (seen_of pairs.now.view) (edge_of pairs.now.axis p) ≡ true }
    requires pixels { values.now.pixels ≡ pairs.now.view.size.w * pairs.now.view.size.h }
    requires lent { length sums.old ≡ length pairs.now.view.mesh.vtx2xyz.now }
    ensures { sums.new
        ≡ summed sums.old (pair_additions (axis_of pairs.now.axis) (seen_of pairs.now.view) (values_of values.now) (edge_of pairs.now.axis p)) }
{
    let Some(pair) = pairs.unequal(p) else {
        return;
    };
    match pair.sides {
        Sides::Both(first, second) => {
            let d = values.dldr(pair.p, pair.q);
            scatter_between(sums, pairs, first, second, d);
        }
        Sides::Beside(own, other) => {
            let d = values.dldr(pair.p, pair.q);
            scatter_beside_empty(sums, pairs, own, other, d);
        }
        Sides::Neither => {}
    }
}
