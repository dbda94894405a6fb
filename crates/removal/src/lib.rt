// A removal seen beforehand: the public call `preview_removal`, with C's parameters in C's order.
#![tactic(auto)]

ghost use Rattle.std.specs.Prelude.{◌≡◌, ◌&&◌, ◌/◌, ◌≤◌, length};
ghost use Rattle.questions.specs.Questions.{exact, most_count};
ghost use Rattle.questions.specs.Answer.{code_of};
ghost use Rattle.offers.specs.Thinning.{kept_from};
ghost use Rattle.cells.specs.Layer.{layer};
ghost use Rattle.cells.specs.Lent.{held, lent, SameBuffers};
ghost use Rattle.layers.specs.Calls.{exact_layer};
ghost use Rattle.meshes.specs.Mesh.{faces_of};
ghost use Rattle.rules.specs.declared.Facing.TheVariants.{All};
ghost use Rattle.rules.specs.Offers.{scene};
ghost use Rattle.sequences.specs.Whole.{fresh};
ghost use Rattle.removal_rules.specs.Removal.{kept_by, removal_code, previewing};
ghost use Rattle.removal_counts.specs.Answer.{answered};

use cells::{Layer, LayerMut};
use meshes::Mesh;
use pixels::ImageSize;
use questions::{Refusal, ask};
use removal_counts::Preview;
use rules::Facing;

// Question 4: a mark for each face, and two layers of the image's lengths.
#[tactic(auto, unfolding(questions::specs::Questions::exact))]
fn lengths_ok(faces: usize, removed: &[u8], size: ImageSize, full: &Layer, short: &Layer) -> bool
    ensures { result ≡ exact faces (length removed.now)
        && (exact_layer size.w size.h (lent full.now) && exact_layer size.w size.h (lent short.now)) }
{
    removed.len() == faces && layers::layer_ok(size, full) && layers::layer_ok(size, short)
}

// Questions 1, 3, 4 and 6.
#[tactic(auto, using(questions::specs::Laws::sized), unfolding(removal_rules::specs::Removal::removal_code, questions::specs::Questions::first_no))]
fn ask_removal(
    tri2vtx: &[u32],
    vtx2xyz: &[f32],
    img_w: usize,
    img_h: usize,
    removed: &[u8],
    full: &Layer,
    short: &Layer,
) -> Result<(), Refusal>
    ensures { code_of result ≡ removal_code tri2vtx.now vtx2xyz.now img_w img_h removed.now (lent full.now) (lent short.now) }
{
    ask(questions::sizes_ok(1, img_w, img_h), Refusal::Size)?;
    ask(
        questions::slices_ok(tri2vtx.len(), vtx2xyz.len()),
        Refusal::Slices,
    )?;
    let size = ImageSize { w: img_w, h: img_h };
    let faces = tri2vtx.len() / 3;
    ask(
        lengths_ok(faces, removed, size, full, short),
        Refusal::Lengths,
    )?;
    ask(
        questions::all_below(vtx2xyz.len() / 3, tri2vtx),
        Refusal::Vertices,
    )
}

// The layer cleared, and all faces drawn on it from number 0.
fn draw_full(full: &mut LayerMut, mesh: &Mesh, m: &[f32; 16])
    requires count { length mesh.now.tri2vtx.now / 3 ≤ most_count }
    ensures same { SameBuffers full.old full.new }
    ensures drawn { held full.new ≡ fresh (scene m.now mesh.now.vtx2xyz.now full.old.size.w full.old.size.h All) (faces_of mesh.now.tri2vtx.now) 0 }
{
    full.clear();
    faces::draw_faces(full, mesh, m, 0, Facing::All);
}

// The layer cleared, and the kept faces drawn on it from number 0.
fn draw_short(short: &mut LayerMut, mesh: &Mesh, m: &[f32; 16], removed: &[u8])
    requires count { length mesh.now.tri2vtx.now / 3 ≤ most_count }
    requires marks { length removed.now ≡ length mesh.now.tri2vtx.now / 3 }
    ensures same { SameBuffers short.old short.new }
    ensures drawn { held short.new
        ≡ fresh (scene m.now mesh.now.vtx2xyz.now short.old.size.w short.old.size.h All) (kept_from (kept_by removed.now) 0 (faces_of mesh.now.tri2vtx.now)) 0 }
{
    short.clear();
    kept_faces::draw_kept_faces(short, mesh, m, removed, Facing::All);
}

// What becomes of the pixels when the marked faces are removed. The two layers are scratch, and afterwards hold the two drawings.
pub fn preview_removal(
    tri2vtx: &[u32],
    vtx2xyz: &[f32],
    img_w: usize,
    img_h: usize,
    transform_world2ndc: &[f32; 16],
    removed: &[u8],
    full_pix2tri: &mut [u32],
    full_pix2depth: &mut [f32],
    full_pix2weights: &mut [f32],
    short_pix2tri: &mut [u32],
    short_pix2depth: &mut [f32],
    short_pix2weights: &mut [f32],
) -> Result<Preview, Refusal>
    ensures { answered result (layer full_pix2tri.new full_pix2depth.new full_pix2weights.new)
        (layer short_pix2tri.new short_pix2depth.new short_pix2weights.new)
        ≡ previewing tri2vtx.now vtx2xyz.now img_w img_h transform_world2ndc.now removed.now
        (layer full_pix2tri.old full_pix2depth.old full_pix2weights.old)
        (layer short_pix2tri.old short_pix2depth.old short_pix2weights.old) }
{
    let lent_full = Layer {
        pix2tri: full_pix2tri,
        pix2depth: full_pix2depth,
        pix2weights: full_pix2weights,
    };
    let lent_short = Layer {
        pix2tri: short_pix2tri,
        pix2depth: short_pix2depth,
        pix2weights: short_pix2weights,
    };
    ask_removal(
        tri2vtx,
        vtx2xyz,
        img_w,
        img_h,
        removed,
        &lent_full,
        &lent_short,
    )?;
    let size = ImageSize { w: img_w, h: img_h };
    let mesh = Mesh { tri2vtx, vtx2xyz };
    let mut full = LayerMut {
        size,
        pix2tri: full_pix2tri,
        pix2depth: full_pix2depth,
        pix2weights: full_pix2weights,
    };
    let mut short = LayerMut {
        size,
        pix2tri: short_pix2tri,
        pix2depth: short_pix2depth,
        pix2weights: short_pix2weights,
    };
    draw_full(&mut full, &mesh, transform_world2ndc);
    draw_short(&mut short, &mesh, transform_world2ndc, removed);
    Ok(removal_counts::count_pixels(removed, full_pix2tri, short_pix2tri))
}
