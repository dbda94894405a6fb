// 02, Point 1: outline smoothing, the public call `antialias`, with C's parameters in C's order.
#![tactic(auto)]

ghost use Rattle.std.specs.Prelude.{◌≡◌, ◌+◌, ◌*◌, ◌/◌, ◌<◌, ◌≤◌, length, IfOk};
ghost use mathlib.Core.List.{flat_map};
ghost use Rattle.questions.specs.Answer.{code_of};
ghost use Rattle.questions.specs.Questions.{outcome};
ghost use Rattle.outlines.specs.Answer.{ends_of, pixel_of};
ghost use Rattle.outline_views.specs.Outline.{outline_view, shown_in, covered_met, edge_met, edge_items, project_edge};
ghost use Rattle.outline_views.specs.Laws.{row_items};
ghost use Rattle.outline_views.specs.Steps.{OffBorder, both_met};
ghost use Rattle.outline_views.specs.Answer.{seen_of, met_of, outline_edge_of, Lent};
ghost use Rattle.antialias.specs.Smoothing.{wrote, written, smoothed, writes};
ghost use Rattle.antialias.specs.Calls.{antialias_code, antialias_writes, antialiasing};

use outline_views::{Lengths, Met, Outline, OutlineEdge, Traced};
use outlines::Ends;
use pixels::Pixel;
use questions::Refusal;

// The pixel in which the edge lies takes of both values, each by its part of the pixel.
#[tactic(auto, unfolding(crate::specs::Smoothing::wrote, crate::specs::Smoothing::smoothed))]
fn smooth_met(vout: &mut [f32], vin: &[f32], k: Met)
    requires first { k.first < length vin.now }
    requires second { k.second < length vin.now }
    requires lent { length vout.old ≡ length vin.now }
    ensures { vout.new ≡ wrote vout.old (smoothed vin.now (met_of k)) }
{
    let rc = k.crossing.rc;
    if rc < 0.5 {
        vout[k.first] = outlines::mixed(0.5 + rc, vin[k.first], vin[k.second]);
    } else {
        vout[k.second] = outlines::mixed(rc - 0.5, vin[k.first], vin[k.second]);
    }
}

// A pixel and a neighbour of it.
fn smooth_pair(vout: &mut [f32], o: &Outline, vin: &[f32], e: Ends, p: Pixel, q: Pixel)
    requires first_column { p.x < o.now.size.w }
    requires first_row { p.y < o.now.size.h }
    requires second_column { q.x < o.now.size.w }
    requires second_row { q.y < o.now.size.h }
    requires pixels { length vin.now ≡ o.now.size.w * o.now.size.h }
    requires lent { length vout.old ≡ length vin.now }
    ensures { vout.new ≡ written vout.old (flat_map (writes vin.now) (both_met (seen_of o.now) (ends_of e) (pixel_of p) (pixel_of q))) }
{
    let Some(k) = o.met_between(e, p, q) else {
        return;
    };
    smooth_met(vout, vin, k);
}

// A pixel with its neighbour before and with the one after, where the edge covers the pixel and a crossing may be there.
fn smooth_pixel(vout: &mut [f32], o: &Outline, vin: &[f32], t: &Traced, p: Pixel)
    requires inside { OffBorder o.now.size.w o.now.size.h (pixel_of p) }
    requires pixels { length vin.now ≡ o.now.size.w * o.now.size.h }
    requires lent { length vout.old ≡ length vin.now }
    ensures { vout.new ≡ written vout.old (flat_map (writes vin.now) (covered_met (seen_of o.now) (ends_of t.now.reach.e) (pixel_of p))) }
{
    if !o.touches(t, p) {
        return;
    }
    smooth_pair(vout, o, vin, t.reach.e, p, outlines::before(t.axis, p));
    smooth_pair(vout, o, vin, t.reach.e, p, outlines::after(t.axis, p));
}

// The pixels of a row that an edge may cover.
fn smooth_row(vout: &mut [f32], o: &Outline, vin: &[f32], t: &Traced, y: usize)
    requires upper { 1 ≤ y }
    requires lower { y + 1 < o.now.size.h }
    requires width { t.now.reach.size.w ≡ o.now.size.w }
    requires height { t.now.reach.size.h ≡ o.now.size.h }
    requires pixels { length vin.now ≡ o.now.size.w * o.now.size.h }
    requires lent { length vout.old ≡ length vin.now }
    ensures { vout.new ≡ written vout.old (row_items (writes vin.now) (seen_of o.now) (ends_of t.now.reach.e) y) }
{
    let columns = t.reach.columns(y);
    for x in columns.start..columns.end {
        smooth_pixel(vout, o, vin, t, Pixel { x, y });
    }
}

// The rows of an edge.
fn smooth_edge(vout: &mut [f32], o: &Outline, vin: &[f32], t: &Traced)
    requires width { t.now.reach.size.w ≡ o.now.size.w }
    requires height { t.now.reach.size.h ≡ o.now.size.h }
    requires pixels { length vin.now ≡ o.now.size.w * o.now.size.h }
    requires lent { length vout.old ≡ length vin.now }
    ensures { vout.new ≡ written vout.old (flat_map (writes vin.now) (edge_met (seen_of o.now) (ends_of t.now.reach.e))) }
{
    for y in t.reach.rows.start..t.reach.rows.end {
        smooth_row(vout, o, vin, t, y);
    }
}

// An edge by its vertices.
fn smooth_ends(vout: &mut [f32], o: &Outline, vin: &[f32], f: OutlineEdge)
    requires first { f.v0 < length o.now.vtx2xyz.now / 3 }
    requires second { f.v1 < length o.now.vtx2xyz.now / 3 }
    requires pixels { length vin.now ≡ o.now.size.w * o.now.size.h }
    requires lent { length vout.old ≡ length vin.now }
    ensures { vout.new ≡ written vout.old (edge_items (λ v e. writes vin.now) (seen_of o.now) (outline_edge_of f) (project_edge o.now.m.now o.now.vtx2xyz.now (outline_edge_of f))) }
{
    let Some(e) = o.project(f) else {
        return;
    };
    smooth_edge(vout, o, vin, &o.trace(e));
}

// The edges, in order.
fn smooth_outline(vout: &mut [f32], o: &Outline, vin: &[f32])
    requires pixels { length vin.now ≡ o.now.size.w * o.now.size.h }
    requires lent { length vout.old ≡ length vin.now }
    ensures { vout.new ≡ written vout.old (antialias_writes (seen_of o.now) vin.now) }
{
    for k in 0..o.edge_count() {
        smooth_ends(vout, o, vin, o.edge(k));
    }
}

// Questions 1, 3, 4, 10 and 8, and the outline that they are asked of. (The parameters are the call's.)
fn ask_antialias<'a>(
    cedge2vtx: &'a [u32],
    vtx2xyz: &'a [f32],
    transform_world2pix: &'a [f32; 16],
    img_w: usize,
    img_h: usize,
    pix2tri: &'a [u32],
    pix2vin: &[f32],
    pix2vout: &[f32],
) -> Result<Outline<'a>, Refusal>
    ensures code { code_of result
        ≡ antialias_code (outline_view (shown_in pix2tri.now) cedge2vtx.now transform_world2pix.now vtx2xyz.now img_w img_h) pix2tri.now pix2vin.now pix2vout.now }
    ensures lent { IfOk result (λ o. Lent o (outline_view (shown_in pix2tri.now) cedge2vtx.now transform_world2pix.now vtx2xyz.now img_w img_h)) }
{
    let lengths = Lengths {
        first: pix2vin.len(),
        second: pix2vout.len(),
        others: true,
    };
    Outline::ask(
        cedge2vtx,
        vtx2xyz,
        transform_world2pix,
        img_w,
        img_h,
        pix2tri,
        lengths,
    )
}

// Smooths the outline of what a map shows: where an edge crosses the way between a pixel that shows a face and an empty neighbour, the pixel that it lies in
// takes of both values.
#[tactic(auto, unfolding(crate::specs::Calls::antialiasing))]
pub fn antialias(
    cedge2vtx: &[u32],
    vtx2xyz: &[f32],
    transform_world2pix: &[f32; 16],
    img_w: usize,
    img_h: usize,
    pix2tri: &[u32],
    pix2vin: &[f32],
    pix2vout: &mut [f32],
) -> Result<(), Refusal>
    ensures { outcome (code_of result) pix2vout.new
        ≡ antialiasing (outline_view (shown_in pix2tri.now) cedge2vtx.now transform_world2pix.now vtx2xyz.now img_w img_h) pix2tri.now pix2vin.now pix2vout.old }
{
    let o = ask_antialias(
        cedge2vtx,
        vtx2xyz,
        transform_world2pix,
        img_w,
        img_h,
        pix2tri,
        pix2vin,
        pix2vout,
    )?;
    smooth_outline(pix2vout, &o, pix2vin);
    Ok(())
}
