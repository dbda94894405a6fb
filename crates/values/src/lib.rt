// Values: the public call `interpolate`, with C's parameters in C's order.
#![tactic(auto)]

ghost use Rattle.std.specs.Prelude.{◌≡◌};
ghost use Rattle.questions.specs.Questions.{outcome};
ghost use Rattle.questions.specs.Answer.{code_of};
ghost use Rattle.pixel_rays.specs.Rays.{image};
ghost use Rattle.vertex_values.specs.Pass.{vertices};
ghost use Rattle.values.specs.Interpolate.{interpolating};

use questions::Refusal;
use vertex_values::Pass;

mod fill;

// At every pixel that shows a face, the values of its corners by the weights of the point where the pixel's ray meets the face's plane.
pub fn interpolate(
    img_w: usize,
    img_h: usize,
    pix2tri: &[u32],
    tri2vtx: &[u32],
    vtx2xyz: &[f32],
    num_vdim: usize,
    vtx2val: &[f32],
    transform_ndc2world: &[f32; 16],
    pix2val: &mut [f32],
) -> Result<(), Refusal>
    ensures { outcome (code_of result) pix2val.new
        ≡ interpolating (image img_w img_h transform_ndc2world.now) (vertices vtx2xyz.now num_vdim vtx2val.now)
        tri2vtx.now pix2tri.now pix2val.old }
{
    let pass = Pass::ask(
        img_w,
        img_h,
        pix2tri,
        tri2vtx,
        vtx2xyz,
        num_vdim,
        vtx2val,
        transform_ndc2world,
        pix2val.len(),
        true,
    )?;
    fill::image_values(pix2val, &pass);
    Ok(())
}
