// How much work a mesh is, without drawing it: the public call `drawing_load`.
#![tactic(auto)]

ghost use Rattle.std.specs.Prelude.{◌≡◌, Bool, ◌/◌, ◌≤◌, length};
ghost use Rattle.lists.specs.Lists.{sum_of};
ghost use Rattle.questions.specs.Answer.{code_of};
ghost use Rattle.questions.specs.Questions.{most_count};
ghost use Rattle.meshes.specs.Mesh.{faces_of};
ghost use Rattle.rules.specs.declared.Facing.TheVariants.{All};
ghost use Rattle.rules.specs.Offers.{scene};
ghost use Rattle.rules.specs.Load as rule;
ghost use Rattle.pieces.specs.Answer.{piece_of, pieces_of};
ghost use Rattle.load.specs.Answer.{load_of, answered, answered_in_c};

use boxes::lines::Lines;
use meshes::Mesh;
use pieces::Pieces;
use pixels::ImageSize;
use questions::{Refusal, ask};
use std::fmt;

// The pieces after clipping, and the pixels that the scan will offer them.
#[derive(Clone, Copy, Debug, PartialEq, Eq)]
pub struct Load {
    pub pieces: u64,
    pub pixels: u64,
}

// The answer as C takes it: the code, and the load, both numbers 0 where the call refuses.
#[repr(C)]
#[derive(Clone, Copy)]
pub struct DrawingLoad {
    pub code: u32,
    pub pieces: u64,
    pub pixels: u64,
}

impl From<Result<Load, Refusal>> for DrawingLoad {
    fn from(answer: Result<Load, Refusal>) -> DrawingLoad
        ensures { answered_in_c result ≡ answered answer }
    {
        match answer {
            Ok(load) => DrawingLoad {
                code: 0,
                pieces: load.pieces,
                pixels: load.pixels,
            },
            Err(refusal) => DrawingLoad {
                code: u32::from(refusal),
                pieces: 0,
                pixels: 0,
            },
        }
    }
}

// The pixels that the scan of a piece offers: its columns times its rows. Pieces off the image leave early. The three corners
// travel as an array of arrays, by value, as the specification names it.
fn piece_pixels(size: ImageSize, ndc: [[f32; 3]; 3]) -> u64
    ensures { (turned : Bool) → result ≡ rule.piece_pixels size.w size.h (piece_of turned ndc) }
{
    let t = pieces::corners(ndc);
    let columns = Lines::columns(size.w).count_centres(t.p0.x, t.p1.x, t.p2.x);
    if columns == 0 {
        return 0;
    }
    let rows = Lines::rows(size.h).count_centres(t.p0.y, t.p1.y, t.p2.y);
    (columns * rows) as u64
}

fn pieces_pixels(size: ImageSize, ps: Pieces) -> u64
    ensures { result ≡ sum_of (rule.piece_pixels size.w size.h) (pieces_of ps) }
{
    match ps {
        Pieces::Nothing => 0,
        Pieces::Whole(t) => piece_pixels(size, pieces::whole(t)),
        Pieces::One(l) => piece_pixels(size, l.one_piece()),
        Pieces::Two(l) => {
            let first = l.first_piece();
            let second = l.second_piece();
            piece_pixels(size, first) + piece_pixels(size, second)
        }
    }
}

// All faces, one after the other.
fn mesh_load(mesh: &Mesh, size: ImageSize, m: &[f32; 16]) -> Load
    requires { length mesh.now.tri2vtx.now / 3 ≤ most_count }
    ensures { load_of result ≡ rule.load_of (scene m.now mesh.now.vtx2xyz.now size.w size.h All) (faces_of mesh.now.tri2vtx.now) }
{
    let mut pieces: u64 = 0;
    let mut pixels: u64 = 0;
    for i in 0..mesh.face_count() {
        let ps = pieces::face_pieces(mesh, m, i);
        pieces += u64::from(ps.charge());
        pixels += pieces_pixels(size, ps);
    }
    Load { pieces, pixels }
}

// Questions 1, 3 and 6.
#[tactic(auto, unfolding(rules::specs::Load::load_code, questions::specs::Questions::first_no))]
fn ask_load(tri2vtx: &[u32], vtx2xyz: &[f32], w: usize, h: usize) -> Result<(), Refusal>
    ensures { code_of result ≡ rule.load_code tri2vtx.now vtx2xyz.now w h }
{
    ask(questions::sizes_ok(1, w, h), Refusal::Size)?;
    ask(
        questions::slices_ok(tri2vtx.len(), vtx2xyz.len()),
        Refusal::Slices,
    )?;
    ask(
        questions::all_below(vtx2xyz.len() / 3, tri2vtx),
        Refusal::Vertices,
    )
}

// The load of the faces.
pub fn drawing_load(
    tri2vtx: &[u32],
    vtx2xyz: &[f32],
    img_w: usize,
    img_h: usize,
    transform_world2ndc: &[f32; 16],
) -> Result<Load, Refusal>
    ensures { answered result ≡ rule.loading tri2vtx.now vtx2xyz.now img_w img_h transform_world2ndc.now }
{
    ask_load(tri2vtx, vtx2xyz, img_w, img_h)?;
    let mesh = Mesh { tri2vtx, vtx2xyz };
    let size = ImageSize { w: img_w, h: img_h };
    Ok(mesh_load(&mesh, size, transform_world2ndc))
}
