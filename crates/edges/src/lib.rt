// Edges: the public call `edge_gradient_and_type`, with C's parameters in C's order.
#![tactic(auto)]

ghost use Rattle.std.specs.Prelude.{◌≡◌, ◌≤◌, IfOk};
ghost use Rattle.questions.specs.Questions.{outcome};
ghost use Rattle.questions.specs.Answer.{code_of};
ghost use Rattle.meshes.specs.View.{view_of};
ghost use Rattle.pairs.specs.Pairs.{edge_view};
ghost use Rattle.pairs.specs.Gradient.{pixel_values};
ghost use Rattle.pairs.specs.Answer.{axis_of, Lent};
ghost use Rattle.edge_types.specs.Axis.{axis_buffers};
ghost use Rattle.edges.specs.Calls.{edge_buffers, exact_axis, edge_code, edge_typing};

use edge_types::AxisBuffers;
use meshes::{Mesh, View};
use pairs::PixelValues;
use pixels::{Axis, ImageSize};
use questions::{Refusal, ask};

// Question 4 of one axis's buffers.
#[tactic(auto, unfolding(questions::specs::Questions::exact))]
fn axis_ok(size: ImageSize, axis: Axis, types: &[u8], dldr: &[f32]) -> bool
    requires columns { axis.right ≤ size.w }
    requires rows { axis.down ≤ size.h }
    ensures { result ≡ exact_axis (axis_of axis) size.w size.h (axis_buffers types.now dldr.now) }
{
    let n = pixels::edge_count(size.w, size.h, axis);
    types.len() == n && dldr.len() == n
}

// Questions 1 to 8, and the view that they are asked of. (The parameters are the call's.)
#[tactic(auto, using(pairs::proofs::Asked::asked), unfolding(questions::specs::Questions::first_no, crate::specs::Calls::edge_code))]
fn ask_edges<'a>(
    tri2vtx: &'a [u32],
    vtx2xyz: &'a [f32],
    transform_world2pix: &'a [f32; 16],
    img_w: usize,
    img_h: usize,
    pix2tri: &'a [u32],
    num_vdim: usize,
    pix2val: &[f32],
    dldw_pix2val: &[f32],
    hedge2type: &[u8],
    hedge2dldr: &[f32],
    vedge2type: &[u8],
    vedge2dldr: &[f32],
) -> Result<View<'a>, Refusal>
    ensures code { code_of result ≡ edge_code tri2vtx.now pix2tri.now img_h
        (edge_view (view_of tri2vtx.now pix2tri.now) transform_world2pix.now vtx2xyz.now img_w)
        (pixel_values pix2val.now dldw_pix2val.now num_vdim)
        (edge_buffers (axis_buffers hedge2type.now hedge2dldr.now) (axis_buffers vedge2type.now vedge2dldr.now)) }
    ensures lent { IfOk result (λ v. Lent v img_h (edge_view (view_of tri2vtx.now pix2tri.now) transform_world2pix.now vtx2xyz.now img_w)) }
{
    questions::ask_opening(img_w, img_h, num_vdim, tri2vtx.len(), vtx2xyz.len())?;
    let size = ImageSize { w: img_w, h: img_h };
    ask(
        pairs::pixels_ok(size, pix2tri, num_vdim, pix2val, dldw_pix2val)
            && axis_ok(size, Axis::HEDGE, hedge2type, hedge2dldr)
            && axis_ok(size, Axis::VEDGE, vedge2type, vedge2dldr),
        Refusal::Lengths,
    )?;
    questions::ask_naming(vtx2xyz.len() / 3, tri2vtx, pix2tri)?;
    let view = View {
        size,
        mesh: Mesh { tri2vtx, vtx2xyz },
        pix2tri,
        m: transform_world2pix,
    };
    ask(pairs::both_answered(&view), Refusal::Projections)?;
    Ok(view)
}

// The type and the gradient `dldr` of every pair of neighbouring pixels.
#[tactic(auto, using(crate::specs::Laws::edge_accepted, crate::proofs::Calls::edge_refused, crate::proofs::Calls::edge_done))]
pub fn edge_gradient_and_type(
    tri2vtx: &[u32],
    vtx2xyz: &[f32],
    transform_world2pix: &[f32; 16],
    img_w: usize,
    img_h: usize,
    pix2tri: &[u32],
    num_vdim: usize,
    pix2val: &[f32],
    dldw_pix2val: &[f32],
    hedge2type: &mut [u8],
    hedge2dldr: &mut [f32],
    vedge2type: &mut [u8],
    vedge2dldr: &mut [f32],
) -> Result<(), Refusal>
    ensures { outcome (code_of result) (edge_buffers (axis_buffers hedge2type.new hedge2dldr.new) (axis_buffers vedge2type.new vedge2dldr.new))
        ≡ edge_typing tri2vtx.now pix2tri.now img_h
        (edge_view (view_of tri2vtx.now pix2tri.now) transform_world2pix.now vtx2xyz.now img_w)
        (pixel_values pix2val.now dldw_pix2val.now num_vdim)
        (edge_buffers (axis_buffers hedge2type.old hedge2dldr.old) (axis_buffers vedge2type.old vedge2dldr.old)) }
{
    let view = ask_edges(
        tri2vtx,
        vtx2xyz,
        transform_world2pix,
        img_w,
        img_h,
        pix2tri,
        num_vdim,
        pix2val,
        dldw_pix2val,
        hedge2type,
        hedge2dldr,
        vedge2type,
        vedge2dldr,
    )?;
    let values = PixelValues {
        pixels: view.size.pixels(),
        num_vdim,
        pix2val,
        dldw_pix2val,
    };
    let mut hedges = AxisBuffers {
        types: hedge2type,
        dldrs: hedge2dldr,
    };
    let mut vedges = AxisBuffers {
        types: vedge2type,
        dldrs: vedge2dldr,
    };
    edge_types::fill_axis(&view, &values, &mut hedges, Axis::HEDGE);
    edge_types::fill_axis(&view, &values, &mut vedges, Axis::VEDGE);
    Ok(())
}
