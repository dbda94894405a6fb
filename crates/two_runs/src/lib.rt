// Demand 3 met by the calls themselves: a mesh cut in two runs, each cleared and drawn in a layer of its own, then joined. Not a public call: it takes what it hands
// to the calls, as they take it.
#![tactic(auto)]

ghost use Rattle.std.specs.Prelude.{◌≡◌, ◌*◌, ◌/◌, ◌≤◌, length};
ghost use Rattle.questions.specs.Questions.{outcome};
ghost use Rattle.questions.specs.Answer.{code_of};
ghost use Rattle.cells.specs.Layer.{layer};
ghost use Rattle.cells.specs.Steps.{Spans};
ghost use Rattle.layers.specs.Calls.{clearing};
ghost use Rattle.rules.specs.Calls.{draw_code, draws};
ghost use Rattle.sequences.specs.Whole.{cleared};

use questions::Refusal;

// `facing` is a number in both, as in the drawing's call.

// Clears a layer and draws a run of a mesh's faces on it, numbered from `first`. A refused call leaves what it was lent, so it is not asked what they answer.
fn draw_run(
    pix2tri: &mut [u32],
    pix2depth: &mut [f32],
    pix2weights: &mut [f32],
    tri2vtx: &[u32],
    vtx2xyz: &[f32],
    img_w: usize,
    img_h: usize,
    m: &[f32; 16],
    first: u32,
    facing: u32,
)
    ensures { layer pix2tri.new pix2depth.new pix2weights.new
        ≡ (draws (clearing (layer pix2tri.old pix2depth.old pix2weights.old) img_w img_h).left tri2vtx.now vtx2xyz.now img_w img_h m.now first facing).left }
{
    let _ = layers::clear(pix2tri, pix2depth, pix2weights, img_w, img_h);
    let _ = drawing::pix2tri_by_rasterization(
        pix2tri,
        pix2depth,
        pix2weights,
        tri2vtx,
        vtx2xyz,
        img_w,
        img_h,
        m,
        first,
        facing,
    );
}

// The first `count` faces go to the left layer, the others, numbered on, to the right one. Joined, the left layer is what one draw of the whole mesh leaves
// in a cleared layer. That is the theorem, and no proof here looks into a call.
pub fn draw_in_two_runs(
    left_pix2tri: &mut [u32],
    left_pix2depth: &mut [f32],
    left_pix2weights: &mut [f32],
    right_pix2tri: &mut [u32],
    right_pix2depth: &mut [f32],
    right_pix2weights: &mut [f32],
    tri2vtx: &[u32],
    vtx2xyz: &[f32],
    img_w: usize,
    img_h: usize,
    transform_world2ndc: &[f32; 16],
    count: usize,
    facing: u32,
) -> Result<(), Refusal>
    requires accepted { draw_code (cleared (img_w * img_h)) tri2vtx.now vtx2xyz.now img_w img_h 0 ≡ 0 }
    requires count { count ≤ length tri2vtx.now / 3 }
    requires left { Spans (layer left_pix2tri.old left_pix2depth.old left_pix2weights.old) (img_w * img_h) }
    requires right { Spans (layer right_pix2tri.old right_pix2depth.old right_pix2weights.old) (img_w * img_h) }
    ensures { outcome (code_of result) (layer left_pix2tri.new left_pix2depth.new left_pix2weights.new)
        ≡ draws (cleared (img_w * img_h)) tri2vtx.now vtx2xyz.now img_w img_h transform_world2ndc.now 0 facing }
{
    let cut = 3 * count;
    draw_run(
        left_pix2tri,
        left_pix2depth,
        left_pix2weights,
        &tri2vtx[..cut],
        vtx2xyz,
        img_w,
        img_h,
        transform_world2ndc,
        0,
        facing,
    );
    draw_run(
        right_pix2tri,
        right_pix2depth,
        right_pix2weights,
        &tri2vtx[cut..],
        vtx2xyz,
        img_w,
        img_h,
        transform_world2ndc,
        count as u32,
        facing,
    );
    layers::join(
        left_pix2tri,
        left_pix2depth,
        left_pix2weights,
        right_pix2tri,
        right_pix2depth,
        right_pix2weights,
        img_w,
        img_h,
    )
}
