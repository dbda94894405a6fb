// Meshes in flat slices, their corners projected, and sums into an accumulator. No function here is a public call.
#![tactic(auto)]

ghost use Rattle.std.specs.Prelude.{◌≡◌, true, ◌+◌, ◌*◌, ◌/◌, ◌<◌, length, get_or, IfSome};
ghost use Rattle.questions.specs.Questions.{names_face};
ghost use Rattle.geometry.specs.Answer.{point3, corners_of, projections_of};
ghost use Rattle.meshes.specs.Mesh.{face_at, vertex_at, corners_at, project_face, Among};
ghost use Rattle.meshes.specs.Answer.{face_of};
ghost use Rattle.meshes.specs.Sound.{SoundMesh, SoundMap};
ghost use Rattle.meshes.specs.View.{named};
ghost use Rattle.meshes.specs.Sums.{added, addition, at_vertex, summed};

use geometry::{Projected, Triangle, Vec3};
use pixels::{ImageSize, Pixel};

// Three vertex numbers, each counted from 0.
#[derive(Clone, Copy)]
pub struct Face {
    pub v0: usize,
    pub v1: usize,
    pub v2: usize,
}

// Faces, three vertex numbers each, and vertices, three coordinates of the world each, as a call is lent them, once questions 3 and 6 are answered yes.
#[derive(Clone, Copy)]
pub struct Mesh<'a> {
    pub tri2vtx: &'a [u32],
    pub vtx2xyz: &'a [f32],
    pub ghost sound: { SoundMesh tri2vtx.now vtx2xyz.now },
}

// A mesh and a map of an image of it, once questions 1, 3, 4, 6 and 7 are answered yes, and the matrix that the call takes with them,
// its sixteen numbers column by column.
#[derive(Clone, Copy)]
pub struct View<'a> {
    pub size: ImageSize,
    pub mesh: Mesh<'a>,
    pub pix2tri: &'a [u32],
    pub m: &'a [f32; 16],
    pub ghost sound: { SoundMap mesh.tri2vtx.now mesh.vtx2xyz.now pix2tri.now size.w size.h },
}

impl View<'_> {
    // The map's entry of a pixel.
    #[tactic(auto, using(crate::specs::Laws::entry_named))]
    pub fn entry(&self, p: Pixel) -> u32
        requires in_row { p.x < self.now.size.w }
        requires in_column { p.y < self.now.size.h }
        ensures entry { result ≡ get_or self.now.pix2tri.now (p.y * self.now.size.w + p.x) 0 }
        ensures named { names_face (length self.now.mesh.tri2vtx.now / 3) result ≡ true }
    {
        self.pix2tri[self.size.number(p)]
    }
}

impl Mesh<'_> {
    ghost use Rattle.meshes.specs.Answer.{maybe_face};

    // The face that a map's entry names, none for an empty one.
    #[tactic(auto, using(questions::specs::Laws::face_below), unfolding(crate::specs::View::named))]
    pub fn named(&self, entry: u32) -> Option<Face>
        requires { names_face (length self.now.tri2vtx.now / 3) entry ≡ true }
        ensures face { maybe_face result ≡ named self.now.tri2vtx.now entry }
        ensures among { IfSome result (λ f. Among (length self.now.vtx2xyz.now / 3) (face_of f)) }
    {
        if entry == questions::EMPTY {
            return None;
        }
        Some(self.face(entry as usize))
    }

    pub fn face_count(&self) -> usize
        ensures { result ≡ length self.now.tri2vtx.now / 3 }
    {
        self.tri2vtx.len() / 3
    }

    // Face number i.
    #[tactic(auto, using(crate::specs::Laws::corners_there))]
    pub fn face(&self, i: usize) -> Face
        requires { i < length self.now.tri2vtx.now / 3 }
        ensures face { face_of result ≡ face_at self.now.tri2vtx.now i }
        ensures among { Among (length self.now.vtx2xyz.now / 3) (face_of result) }
    {
        face_at(self.tri2vtx, i)
    }

    // The corners of a face.
    pub fn corners(&self, f: Face) -> Triangle<Vec3>
        requires { Among (length self.now.vtx2xyz.now / 3) (face_of f) }
        ensures { corners_of result ≡ corners_at self.now.vtx2xyz.now (face_of f) }
    {
        corners(self.vtx2xyz, f)
    }

    // The corners of a face as the matrix takes them, in normalised device coordinates, none where one of them has no projection.
    #[inline(always)]
    #[tactic(auto, unfolding(crate::specs::Mesh::project_face, crate::specs::Mesh::all_three))]
    pub fn project(&self, m: &[f32; 16], f: Face) -> Option<Triangle<Projected>>
        requires { Among (length self.now.vtx2xyz.now / 3) (face_of f) }
        ensures { projections_of result ≡ project_face m.now self.now.vtx2xyz.now (face_of f) }
    {
        let p0 = geometry::project(m, vertex(self.vtx2xyz, f.v0))?;
        let p1 = geometry::project(m, vertex(self.vtx2xyz, f.v1))?;
        let p2 = geometry::project(m, vertex(self.vtx2xyz, f.v2))?;
        Some(Triangle { p0, p1, p2 })
    }
}

// `face_at`, `vertex` and `corners` read any slice that is long enough: they ask less than a mesh says.

// Face number i.
#[tactic(auto, unfolding(crate::specs::Mesh::face_at))]
pub fn face_at(tri2vtx: &[u32], i: usize) -> Face
    requires { 3 * i + 2 < length tri2vtx.now }
    ensures { face_of result ≡ face_at tri2vtx.now i }
{
    let k = 3 * i;
    Face {
        v0: tri2vtx[k] as usize,
        v1: tri2vtx[k + 1] as usize,
        v2: tri2vtx[k + 2] as usize,
    }
}

// Vertex number v.
#[tactic(auto, unfolding(crate::specs::Mesh::vertex_at))]
pub fn vertex(vtx2xyz: &[f32], v: usize) -> Vec3
    requires { 3 * v + 2 < length vtx2xyz.now }
    ensures { point3 result ≡ vertex_at vtx2xyz.now v }
{
    let k = 3 * v;
    Vec3 {
        x: vtx2xyz[k],
        y: vtx2xyz[k + 1],
        z: vtx2xyz[k + 2],
    }
}

// The corners of a face.
#[tactic(auto, unfolding(crate::specs::Mesh::corners_at))]
pub fn corners(vtx2xyz: &[f32], f: Face) -> Triangle<Vec3>
    requires { Among (length vtx2xyz.now / 3) (face_of f) }
    ensures { corners_of result ≡ corners_at vtx2xyz.now (face_of f) }
{
    Triangle {
        p0: vertex(vtx2xyz, f.v0),
        p1: vertex(vtx2xyz, f.v1),
        p2: vertex(vtx2xyz, f.v2),
    }
}

// `amount` added at `place`.
#[tactic(auto, unfolding(crate::specs::Sums::added))]
pub fn add_at(sums: &mut [f32], place: usize, amount: f32)
    requires { place < length sums.old }
    ensures { sums.new ≡ added sums.old (addition place amount) }
{
    sums[place] += amount;
}

// x to the coordinates of vertex v.
#[tactic(auto, unfolding(crate::specs::Sums::at_vertex, crate::specs::Sums::summed))]
pub fn add_vertex(sums: &mut [f32], v: usize, x: Vec3)
    requires { v < length sums.old / 3 }
    ensures { sums.new ≡ summed sums.old (at_vertex v (point3 x)) }
{
    let i = 3 * v;
    add_at(sums, i, x.x);
    add_at(sums, i + 1, x.y);
    add_at(sums, i + 2, x.z);
}
