// The backward pass of values: the public call `interpolate_bwd`, with C's parameters in C's order.
#![tactic(auto)]

ghost use Rattle.std.specs.Prelude.{◌≡◌, ◌&&◌};
ghost use Rattle.questions.specs.Questions.{exact, outcome};
ghost use Rattle.questions.specs.Answer.{code_of};
ghost use Rattle.pixel_rays.specs.Rays.{image};
ghost use Rattle.vertex_values.specs.Pass.{vertices};
ghost use Rattle.pixel_bwd.specs.Additions.{sums};
ghost use Rattle.values_bwd.specs.Bwd.{interpolating_bwd};

use pixel_bwd::Backward;
use questions::Refusal;
use vertex_values::Pass;

// Question 4 of the accumulators, by lengths: as long as `vtx2xyz` and `vtx2val`.
#[tactic(auto, unfolding(questions::specs::Questions::exact))]
fn sums_ok(xyz: usize, dxyz: usize, val: usize, dval: usize) -> bool
    ensures { result ≡ exact xyz dxyz && exact val dval }
{
    dxyz == xyz && dval == val
}

// At every pixel that shows a face, in rising number, the gradients of its channels go to the face's vertices: to their coordinates and to their values.
pub fn interpolate_bwd(
    img_w: usize,
    img_h: usize,
    pix2tri: &[u32],
    tri2vtx: &[u32],
    vtx2xyz: &[f32],
    num_vdim: usize,
    vtx2val: &[f32],
    transform_ndc2world: &[f32; 16],
    dldw_pix2val: &[f32],
    dldw_vtx2xyz: &mut [f32],
    dldw_vtx2val: &mut [f32],
) -> Result<(), Refusal>
    ensures { outcome (code_of result) (sums dldw_vtx2xyz.new dldw_vtx2val.new)
        ≡ interpolating_bwd (image img_w img_h transform_ndc2world.now) (vertices vtx2xyz.now num_vdim vtx2val.now)
        tri2vtx.now pix2tri.now dldw_pix2val.now (sums dldw_vtx2xyz.old dldw_vtx2val.old) }
{
    let exact = sums_ok(
        vtx2xyz.len(),
        dldw_vtx2xyz.len(),
        vtx2val.len(),
        dldw_vtx2val.len(),
    );
    let pass = Pass::ask(
        img_w,
        img_h,
        pix2tri,
        tri2vtx,
        vtx2xyz,
        num_vdim,
        vtx2val,
        transform_ndc2world,
        dldw_pix2val.len(),
        exact,
    )?;
    let mut sums = Backward {
        vertices: &pass.vertices,
        dldw: dldw_pix2val,
        dxyz: dldw_vtx2xyz,
        dval: dldw_vtx2val,
    };
    image_bwd::add_image(&mut sums, &pass.view);
    Ok(())
}
