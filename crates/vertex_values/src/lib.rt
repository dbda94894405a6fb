// What both values passes ask before they write, and what they know then. Nothing here writes, and no function here is a public call.
#![tactic(auto)]

ghost use Rattle.std.specs.Prelude.{◌≡◌, ◌&&◌, ◌*◌, ◌/◌, ◌<◌, ◌≤◌, true, length, IfOk};
ghost use Rattle.questions.specs.Questions.{most_count};
ghost use Rattle.questions.specs.Answer.{code_of};
ghost use Rattle.questions.specs.Laws.{Channels};
ghost use Rattle.meshes.specs.View.{view_of};
ghost use Rattle.pixel_rays.specs.Rays.{image};
ghost use Rattle.vertex_values.specs.Pass.{vertices};
ghost use Rattle.vertex_values.specs.Questions.{exact_counts, pass_code};

use meshes::{Mesh, View};
use pixels::ImageSize;
use questions::{Refusal, ask};

// Vertices, three coordinates of the world each, and `num_vdim` values for each of them.
#[derive(Clone, Copy)]
pub struct Vertices<'a> {
    pub vtx2xyz: &'a [f32],
    pub num_vdim: usize,
    pub vtx2val: &'a [f32],
    pub ghost valued: { length vtx2val.now ≡ length vtx2xyz.now / 3 * num_vdim },
}

// What both passes are lent, once their questions are answered yes: a view, and its vertices with their values.
#[derive(Clone, Copy)]
pub struct Pass<'a> {
    pub view: View<'a>,
    pub vertices: Vertices<'a>,
    pub ghost own: { vertices.vtx2xyz.now ≡ view.mesh.vtx2xyz.now },
}

impl Vertices<'_> {
    ghost use Rattle.vertex_values.specs.Pass.{value_of};
    ghost use Rattle.vertex_values.specs.Answer.{vertices_of};

    // Channel j of vertex v.
    #[tactic(auto, using(crate::specs::Laws::value_there))]
    pub fn value(&self, v: usize, j: usize) -> f32
        requires vertex { v < length self.now.vtx2xyz.now / 3 }
        requires channel { j < self.now.num_vdim }
        ensures { result ≡ value_of (vertices_of self.now) v j }
    {
        self.vtx2val[v * self.num_vdim + j]
    }
}

// Question 4 of the buffers that both passes are lent, by their lengths; `others`: have those that one pass alone is lent the exact length?
#[tactic(auto, using(crate::specs::Laws::few_fits, questions::specs::Laws::area_fits), unfolding(questions::specs::Questions::exact, crate::specs::Questions::exact_counts))]
fn exact_ok(
    size: ImageSize,
    c: usize,
    vertices: usize,
    map: usize,
    val: usize,
    pixels: usize,
    others: bool,
) -> bool
    requires channels { Channels c }
    requires vertices_few { vertices ≤ most_count }
    ensures { result ≡ exact_counts size.w size.h c vertices map val pixels && others }
{
    let n = size.pixels();
    map == n && val == vertices * c && pixels == n * c && others
}

impl<'a> Pass<'a> {
    ghost use Rattle.vertex_values.specs.Answer.{Lent};

    // The questions of a pass with a buffer of `pixels` numbers for its pixels; `others`: have the buffers that it alone is lent the exact length?
    // (The parameters are the calls'.)
    #[tactic(auto, unfolding(questions::specs::Questions::first_no, crate::specs::Questions::pass_code))]
    pub fn ask(
        w: usize,
        h: usize,
        pix2tri: &'a [u32],
        tri2vtx: &'a [u32],
        vtx2xyz: &'a [f32],
        num_vdim: usize,
        vtx2val: &'a [f32],
        m: &'a [f32; 16],
        pixels: usize,
        others: bool,
    ) -> Result<Pass<'a>, Refusal>
        ensures code { code_of result ≡ pass_code (image w h m.now) (vertices vtx2xyz.now num_vdim vtx2val.now) tri2vtx.now pix2tri.now pixels others }
        ensures lent { IfOk result (λ p. Lent p (image w h m.now) (vertices vtx2xyz.now num_vdim vtx2val.now) (view_of tri2vtx.now pix2tri.now) pixels) }
        ensures exact { IfOk result (λ p. others ≡ true) }
    {
        questions::ask_opening(w, h, num_vdim, tri2vtx.len(), vtx2xyz.len())?;
        let size = ImageSize { w, h };
        let count = vtx2xyz.len() / 3;
        let exact = exact_ok(
            size,
            num_vdim,
            count,
            pix2tri.len(),
            vtx2val.len(),
            pixels,
            others,
        );
        ask(exact, Refusal::Lengths)?;
        questions::ask_naming(count, tri2vtx, pix2tri)?;
        let mesh = Mesh { tri2vtx, vtx2xyz };
        let view = View {
            size,
            mesh,
            pix2tri,
            m,
        };
        ask(pixel_rays::rays_ok(size, m, pix2tri), Refusal::Projections)?;
        let vertices = Vertices {
            vtx2xyz,
            num_vdim,
            vtx2val,
        };
        Ok(Pass { view, vertices })
    }
}
