// 02, Point 1: outline smoothing backward, the public call `bwd_antialias`, with C's parameters in C's order.
#![tactic(auto)]

mod incoming;

ghost use Rattle.std.specs.Prelude.{◌≡◌, ◌+◌, ◌*◌, ◌/◌, ◌<◌, ◌≤◌, length, IfOk};
ghost use mathlib.Core.List.{flat_map};
ghost use Rattle.questions.specs.Answer.{code_of};
ghost use Rattle.questions.specs.Questions.{outcome};
ghost use Rattle.geometry.specs.Arith.{floats};
ghost use Rattle.geometry.specs.Answer.{point2, point3};
ghost use Rattle.jacobians.specs.Answer.{matrix_of};
ghost use Rattle.meshes.specs.Sums.{summed};
ghost use Rattle.outlines.specs.Answer.{ends_of, pixel_of};
ghost use Rattle.outline_views.specs.Outline.{outline_view, shown_in, covered_met, edge_met, edge_items, project_edge};
ghost use Rattle.outline_views.specs.Laws.{row_items};
ghost use Rattle.outline_views.specs.Steps.{OffBorder, both_met};
ghost use Rattle.outline_views.specs.Answer.{seen_of, met_of, outline_edge_of, Lent};
ghost use Rattle.antialias_bwd.specs.Formula as formula;
ghost use Rattle.antialias_bwd.specs.Additions.{to_ends, met_additions, crossing_additions};
ghost use Rattle.antialias_bwd.specs.Calls.{bwd_antialias_code, outline_additions, antialiasing_bwd};
ghost use Rattle.antialias_bwd.specs.Answer.{brought, Ready};

use geometry::{Vec2, Vec3};
use incoming::Incoming;
use jacobians::Mat3;
use outline_views::{Lengths, Met, Outline, OutlineEdge, Traced};
use outlines::Ends;
use pixels::Pixel;
use questions::Refusal;

// An edge by its vertices, traced in the picture, and how each end moves with its vertex.
#[derive(Clone, Copy)]
struct MovedEdge {
    f: OutlineEdge,
    t: Traced,
    j0: Mat3,
    j1: Mat3,
}

// What a share in the image brings its vertex, in the world.
#[tactic(auto, unfolding(crate::specs::Formula::pulled_back))]
fn pulled_back(j: Mat3, g: Vec2) -> Vec3
    ensures { point3 result ≡ formula.pulled_back floats (matrix_of j) (point2 g) }
{
    Vec3 {
        x: j.c0.x * g.x + j.c0.y * g.y,
        y: j.c1.x * g.x + j.c1.y * g.y,
        z: j.c2.x * g.x + j.c2.y * g.y,
    }
}

// The shares of both ends, each taken back to its vertex.
#[tactic(auto, using(meshes::specs::Laws::summed_then), unfolding(crate::specs::Additions::to_ends))]
fn add_ends(sums: &mut [f32], a: &MovedEdge, g: Ends)
    requires first { a.now.f.v0 < length sums.old / 3 }
    requires second { a.now.f.v1 < length sums.old / 3 }
    ensures { sums.new ≡ summed sums.old (to_ends (outline_edge_of a.now.f) (matrix_of a.now.j0) (matrix_of a.now.j1) (ends_of g)) }
{
    meshes::add_vertex(sums, a.f.v0, pulled_back(a.j0, g.q0));
    meshes::add_vertex(sums, a.f.v1, pulled_back(a.j1, g.q1));
}

// A crossing.
#[tactic(auto, unfolding(crate::specs::Additions::met_additions))]
fn scatter_met(sums: &mut [f32], values: &Incoming, a: &MovedEdge, k: Met)
    requires first_pixel { k.first < length values.now.pix2val.now }
    requires second_pixel { k.second < length values.now.pix2val.now }
    requires first { a.now.f.v0 < length sums.old / 3 }
    requires second { a.now.f.v1 < length sums.old / 3 }
    ensures { sums.new ≡ summed sums.old (brought values.now a.now (met_of k)) }
{
    let g = outlines::crossing_backward(a.t.reach.e, k.crossing, values.dldr(k));
    add_ends(sums, a, g);
}

// A pixel and a neighbour of it.
fn scatter_pair(sums: &mut [f32], o: &Outline, values: &Incoming, a: &MovedEdge, p: Pixel, q: Pixel)
    requires first_column { p.x < o.now.size.w }
    requires first_row { p.y < o.now.size.h }
    requires second_column { q.x < o.now.size.w }
    requires second_row { q.y < o.now.size.h }
    requires ready { Ready o.now values.now a.now sums.old }
    ensures { sums.new ≡ summed sums.old (flat_map (brought values.now a.now) (both_met (seen_of o.now) (ends_of a.now.t.reach.e) (pixel_of p) (pixel_of q))) }
{
    let Some(k) = o.met_between(a.t.reach.e, p, q) else {
        return;
    };
    scatter_met(sums, values, a, k);
}

// A pixel with its neighbour before and with the one after, where the edge covers the pixel and a crossing may be there.
fn scatter_pixel(sums: &mut [f32], o: &Outline, values: &Incoming, a: &MovedEdge, p: Pixel)
    requires inside { OffBorder o.now.size.w o.now.size.h (pixel_of p) }
    requires ready { Ready o.now values.now a.now sums.old }
    ensures { sums.new ≡ summed sums.old (flat_map (brought values.now a.now) (covered_met (seen_of o.now) (ends_of a.now.t.reach.e) (pixel_of p))) }
{
    if !o.touches(&a.t, p) {
        return;
    }
    scatter_pair(sums, o, values, a, p, outlines::before(a.t.axis, p));
    scatter_pair(sums, o, values, a, p, outlines::after(a.t.axis, p));
}

// The pixels of a row that an edge may cover.
fn scatter_row(sums: &mut [f32], o: &Outline, values: &Incoming, a: &MovedEdge, y: usize)
    requires upper { 1 ≤ y }
    requires lower { y + 1 < o.now.size.h }
    requires ready { Ready o.now values.now a.now sums.old }
    ensures { sums.new ≡ summed sums.old (row_items (brought values.now a.now) (seen_of o.now) (ends_of a.now.t.reach.e) y) }
{
    let columns = a.t.reach.columns(y);
    for x in columns.start..columns.end {
        scatter_pixel(sums, o, values, a, Pixel { x, y });
    }
}

// The rows of an edge.
fn scatter_edge(sums: &mut [f32], o: &Outline, values: &Incoming, a: &MovedEdge)
    requires ready { Ready o.now values.now a.now sums.old }
    ensures { sums.new ≡ summed sums.old (flat_map (brought values.now a.now) (edge_met (seen_of o.now) (ends_of a.now.t.reach.e))) }
{
    for y in a.t.reach.rows.start..a.t.reach.rows.end {
        scatter_row(sums, o, values, a, y);
    }
}

// An edge by its vertices.
fn scatter_ends(sums: &mut [f32], o: &Outline, values: &Incoming, f: OutlineEdge)
    requires first { f.v0 < length o.now.vtx2xyz.now / 3 }
    requires second { f.v1 < length o.now.vtx2xyz.now / 3 }
    requires pixels { length values.now.pix2val.now ≡ o.now.size.w * o.now.size.h }
    requires lent { length sums.old ≡ length o.now.vtx2xyz.now }
    ensures { sums.new ≡ summed sums.old (edge_items (crossing_additions o.now.m.now o.now.vtx2xyz.now values.now.pix2val.now values.now.dldw_pix2val.now)
        (seen_of o.now) (outline_edge_of f) (project_edge o.now.m.now o.now.vtx2xyz.now (outline_edge_of f))) }
{
    let Some(e) = o.project(f) else {
        return;
    };
    let a = MovedEdge {
        f,
        t: o.trace(e),
        j0: jacobians::jacobian_transform(o.m, meshes::vertex(o.vtx2xyz, f.v0)),
        j1: jacobians::jacobian_transform(o.m, meshes::vertex(o.vtx2xyz, f.v1)),
    };
    scatter_edge(sums, o, values, &a);
}

// The edges, in order.
fn scatter_outline(sums: &mut [f32], o: &Outline, values: &Incoming)
    requires pixels { length values.now.pix2val.now ≡ o.now.size.w * o.now.size.h }
    requires lent { length sums.old ≡ length o.now.vtx2xyz.now }
    ensures { sums.new ≡ summed sums.old (outline_additions (seen_of o.now) values.now.pix2val.now values.now.dldw_pix2val.now) }
{
    for k in 0..o.edge_count() {
        scatter_ends(sums, o, values, o.edge(k));
    }
}

// Questions 1, 3, 4, 10 and 8, and the outline that they are asked of. (The parameters are the call's.)
#[tactic(auto, unfolding(crate::specs::Calls::bwd_antialias_code, questions::specs::Questions::exact))]
fn ask_bwd_antialias<'a>(
    cedge2vtx: &'a [u32],
    vtx2xyz: &'a [f32],
    dldw_vtx2xyz: &[f32],
    transform_world2pix: &'a [f32; 16],
    img_w: usize,
    img_h: usize,
    pix2val: &[f32],
    dldw_pix2val: &[f32],
    pix2tri: &'a [u32],
) -> Result<Outline<'a>, Refusal>
    ensures code { code_of result
        ≡ bwd_antialias_code (outline_view (shown_in pix2tri.now) cedge2vtx.now transform_world2pix.now vtx2xyz.now img_w img_h) pix2tri.now
        pix2val.now dldw_pix2val.now dldw_vtx2xyz.now }
    ensures lent { IfOk result (λ o. Lent o (outline_view (shown_in pix2tri.now) cedge2vtx.now transform_world2pix.now vtx2xyz.now img_w img_h)) }
{
    let lengths = Lengths {
        first: pix2val.len(),
        second: dldw_pix2val.len(),
        others: dldw_vtx2xyz.len() == vtx2xyz.len(),
    };
    Outline::ask(
        cedge2vtx,
        vtx2xyz,
        transform_world2pix,
        img_w,
        img_h,
        pix2tri,
        lengths,
    )
}

// Goes back through the smoothing: adds what each crossing brings the ends of its edge.
#[tactic(auto, unfolding(crate::specs::Calls::antialiasing_bwd))]
pub fn bwd_antialias(
    cedge2vtx: &[u32],
    vtx2xyz: &[f32],
    dldw_vtx2xyz: &mut [f32],
    transform_world2pix: &[f32; 16],
    img_w: usize,
    img_h: usize,
    pix2val: &[f32],
    dldw_pix2val: &[f32],
    pix2tri: &[u32],
) -> Result<(), Refusal>
    ensures { outcome (code_of result) dldw_vtx2xyz.new
        ≡ antialiasing_bwd (outline_view (shown_in pix2tri.now) cedge2vtx.now transform_world2pix.now vtx2xyz.now img_w img_h) pix2tri.now
        pix2val.now dldw_pix2val.now dldw_vtx2xyz.old }
{
    let o = ask_bwd_antialias(
        cedge2vtx,
        vtx2xyz,
        dldw_vtx2xyz,
        transform_world2pix,
        img_w,
        img_h,
        pix2val,
        dldw_pix2val,
        pix2tri,
    )?;
    let values = Incoming {
        pix2val,
        dldw_pix2val,
    };
    scatter_outline(dldw_vtx2xyz, &o, &values);
    Ok(())
}
