// Edges: the public call `bwd`, with C's parameters in C's order.
#![tactic(auto)]

ghost use Rattle.std.specs.Prelude.{◌≡◌, IfOk};
ghost use Rattle.questions.specs.Questions.{first_no, outcome};
ghost use Rattle.questions.specs.Answer.{code_of};
ghost use Rattle.meshes.specs.View.{view_of};
ghost use Rattle.pairs.specs.Pairs.{edge_view};
ghost use Rattle.pairs.specs.Gradient.{pixel_values};
ghost use Rattle.pairs.specs.Answer.{seen_of, Lent};
ghost use Rattle.edge_bwd.specs.Calls.{of_pairs, bwd_code, edge_bwd};

use meshes::{Mesh, View};
use pairs::PixelValues;
use pixels::{Axis, ImageSize};
use questions::{Refusal, ask};
use share_rules::AxisPairs;

// Questions 8 and 9. Mostly both are answered by one pass over the pixels; else pair by pair.
#[tactic(auto, using(pairs::proofs::Asked::asked), unfolding(questions::specs::Questions::first_no))]
fn ask_pairs(view: &View) -> Result<(), Refusal>
    ensures { code_of result ≡ first_no (of_pairs view.now.size.h (seen_of view.now)) }
{
    if pixel_unwraps::quickly_answered(view) {
        return Ok(());
    }
    ask(pairs::both_answered(view), Refusal::Projections)?;
    ask(unwraps::both_ok(view), Refusal::Weights)
}

// Questions 1 to 9, and the view that they are asked of. (The parameters are the call's.)
#[tactic(auto, using(pairs::proofs::Asked::asked), unfolding(questions::specs::Questions::first_no, questions::specs::Questions::exact, crate::specs::Calls::bwd_code))]
fn ask_bwd<'a>(
    tri2vtx: &'a [u32],
    vtx2xyz: &'a [f32],
    dldw_vtx2xyz: &[f32],
    transform_world2pix: &'a [f32; 16],
    img_w: usize,
    img_h: usize,
    pix2tri: &'a [u32],
    num_vdim: usize,
    pix2val: &[f32],
    dldw_pix2val: &[f32],
) -> Result<View<'a>, Refusal>
    ensures code { code_of result ≡ bwd_code tri2vtx.now pix2tri.now img_h
        (edge_view (view_of tri2vtx.now pix2tri.now) transform_world2pix.now vtx2xyz.now img_w)
        (pixel_values pix2val.now dldw_pix2val.now num_vdim) dldw_vtx2xyz.now }
    ensures lent { IfOk result (λ v. Lent v img_h (edge_view (view_of tri2vtx.now pix2tri.now) transform_world2pix.now vtx2xyz.now img_w)) }
{
    questions::ask_opening(img_w, img_h, num_vdim, tri2vtx.len(), vtx2xyz.len())?;
    let size = ImageSize { w: img_w, h: img_h };
    ask(
        pairs::pixels_ok(size, pix2tri, num_vdim, pix2val, dldw_pix2val)
            && dldw_vtx2xyz.len() == vtx2xyz.len(),
        Refusal::Lengths,
    )?;
    questions::ask_naming(vtx2xyz.len() / 3, tri2vtx, pix2tri)?;
    let mesh = Mesh { tri2vtx, vtx2xyz };
    let view = View {
        size,
        mesh,
        pix2tri,
        m: transform_world2pix,
    };
    ask_pairs(&view)?;
    Ok(view)
}

// Adds the gradient of every edge to the vertices of the faces that receive it.
#[tactic(auto, using(crate::specs::Laws::bwd_accepted, crate::proofs::Calls::bwd_refused, crate::proofs::Calls::bwd_done))]
pub fn bwd(
    tri2vtx: &[u32],
    vtx2xyz: &[f32],
    dldw_vtx2xyz: &mut [f32],
    transform_world2pix: &[f32; 16],
    img_w: usize,
    img_h: usize,
    pix2tri: &[u32],
    num_vdim: usize,
    pix2val: &[f32],
    dldw_pix2val: &[f32],
) -> Result<(), Refusal>
    ensures { outcome (code_of result) dldw_vtx2xyz.new
        ≡ edge_bwd tri2vtx.now pix2tri.now img_h
        (edge_view (view_of tri2vtx.now pix2tri.now) transform_world2pix.now vtx2xyz.now img_w)
        (pixel_values pix2val.now dldw_pix2val.now num_vdim) dldw_vtx2xyz.old }
{
    let view = ask_bwd(
        tri2vtx,
        vtx2xyz,
        dldw_vtx2xyz,
        transform_world2pix,
        img_w,
        img_h,
        pix2tri,
        num_vdim,
        pix2val,
        dldw_pix2val,
    )?;
    let values = PixelValues {
        pixels: view.size.pixels(),
        num_vdim,
        pix2val,
        dldw_pix2val,
    };
    let hedges = AxisPairs {
        view,
        axis: Axis::HEDGE,
    };
    let vedges = AxisPairs {
        view,
        axis: Axis::VEDGE,
    };
    axis_bwd::scatter_axis(dldw_vtx2xyz, &hedges, &values);
    axis_bwd::scatter_axis(dldw_vtx2xyz, &vedges, &values);
    Ok(())
}
