// Drawing: the public call `pix2tri_by_rasterization`, with C's parameters in C's order.
#![tactic(auto)]

ghost use Rattle.std.specs.Prelude.{◌≡◌};
ghost use Rattle.questions.specs.Questions.{outcome};
ghost use Rattle.questions.specs.Answer.{code_of};
ghost use Rattle.cells.specs.Layer.{layer};
ghost use Rattle.cells.specs.Lent.{lent};
ghost use Rattle.rules.specs.Calls.{draw_code, draws};

use cells::{Layer, LayerMut};
use meshes::Mesh;
use pixels::ImageSize;
use questions::{Refusal, ask};
use rules::Facing;

// Questions 1, 3, 4, 5 and 6.
#[tactic(auto, using(questions::specs::Laws::sized), unfolding(rules::specs::Calls::draw_code, questions::specs::Questions::first_no))]
fn ask_draw(
    layer: &Layer,
    tri2vtx: &[u32],
    vtx2xyz: &[f32],
    img_w: usize,
    img_h: usize,
    first: u32,
) -> Result<(), Refusal>
    ensures { code_of result ≡ draw_code (lent layer.now) tri2vtx.now vtx2xyz.now img_w img_h first }
{
    ask(questions::sizes_ok(1, img_w, img_h), Refusal::Size)?;
    ask(
        questions::slices_ok(tri2vtx.len(), vtx2xyz.len()),
        Refusal::Slices,
    )?;
    let size = ImageSize { w: img_w, h: img_h };
    ask(layers::layer_ok(size, layer), Refusal::Lengths)?;
    ask(
        questions::numbers_ok(first, tri2vtx.len() / 3),
        Refusal::Numbers,
    )?;
    ask(
        questions::all_below(vtx2xyz.len() / 3, tri2vtx),
        Refusal::Vertices,
    )
}

// The faces drawn on the layer, numbered from `first`. `facing` is a number, since every number names one.
pub fn pix2tri_by_rasterization(
    pix2tri: &mut [u32],
    pix2depth: &mut [f32],
    pix2weights: &mut [f32],
    tri2vtx: &[u32],
    vtx2xyz: &[f32],
    img_w: usize,
    img_h: usize,
    transform_world2ndc: &[f32; 16],
    first: u32,
    facing: u32,
) -> Result<(), Refusal>
    ensures { outcome (code_of result) (layer pix2tri.new pix2depth.new pix2weights.new)
        ≡ draws (layer pix2tri.old pix2depth.old pix2weights.old) tri2vtx.now vtx2xyz.now img_w img_h transform_world2ndc.now first facing }
{
    let lent = Layer {
        pix2tri,
        pix2depth,
        pix2weights,
    };
    ask_draw(&lent, tri2vtx, vtx2xyz, img_w, img_h, first)?;
    let size = ImageSize { w: img_w, h: img_h };
    let mesh = Mesh { tri2vtx, vtx2xyz };
    let mut layer = LayerMut {
        size,
        pix2tri,
        pix2depth,
        pix2weights,
    };
    let facing = Facing::from(facing);
    faces::draw_faces(&mut layer, &mesh, transform_world2ndc, first, facing);
    Ok(())
}
