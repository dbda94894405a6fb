// The backward pass of values at one pixel: what it adds. No function here is a public call.
#![tactic(auto)]

ghost use Rattle.std.specs.Prelude.{◌≡◌, ◌+◌, ◌*◌, ◌/◌, ◌≤◌, ◌<◌, length, IfSome};
ghost use Rattle.geometry.specs.Answer.{corners_of, weights_of};
ghost use Rattle.rays.specs.Pixel.{ray_at};
ghost use Rattle.meshes.specs.Mesh.{Among};
ghost use Rattle.meshes.specs.Sums.{summed};
ghost use Rattle.meshes.specs.Answer.{face_of, maybe_face};
ghost use Rattle.vertex_values.specs.Answer.{vertices_of};
ghost use Rattle.pixel_gradients.specs.Gradients.{incoming_at};
ghost use Rattle.pixel_bwd.specs.Additions.{to_corners, to_xyz, to_val, pixel_sums};

use geometry::{Triangle, Vec3, Weights};
use meshes::Face;
use vertex_values::Vertices;

// What `interpolate_bwd` adds to: vertices with their values, the gradients of the pixels' values, and the accumulators of those of the vertices'
// coordinates and values.
#[derive(Drop)]
pub struct Backward<'a> {
    pub vertices: &'a Vertices<'a>,
    pub dldw: &'a [f32],
    pub dxyz: &'a mut [f32],
    pub dval: &'a mut [f32],
    pub ghost xyz: { length dxyz.now ≡ length vertices.now.vtx2xyz.now },
    pub ghost val: { length dval.now ≡ length vertices.now.vtx2val.now },
}

// One addition for each corner of a face, at number j of its n.
#[tactic(auto, unfolding(meshes::specs::Sums::summed))]
fn add_three(sums: &mut [f32], n: usize, f: Face, j: usize, x0: f32, x1: f32, x2: f32)
    requires place0 { f.v0 * n + j < length sums.old }
    requires place1 { f.v1 * n + j < length sums.old }
    requires place2 { f.v2 * n + j < length sums.old }
    ensures { sums.new ≡ summed sums.old (to_corners n (face_of f) j x0 x1 x2) }
{
    meshes::add_at(sums, f.v0 * n + j, x0);
    meshes::add_at(sums, f.v1 * n + j, x1);
    meshes::add_at(sums, f.v2 * n + j, x2);
}

// Each corner's share, axis by axis.
#[tactic(auto, unfolding(crate::specs::Additions::to_xyz, meshes::specs::Sums::summed))]
fn add_shares(dxyz: &mut [f32], f: Face, to: Triangle<Vec3>)
    requires { Among (length dxyz.old / 3) (face_of f) }
    ensures { dxyz.new ≡ summed dxyz.old (to_xyz (face_of f) (corners_of to)) }
{
    let Triangle { p0, p1, p2 } = to;
    add_three(dxyz, 3, f, 0, p0.x, p1.x, p2.x);
    add_three(dxyz, 3, f, 1, p0.y, p1.y, p2.y);
    add_three(dxyz, 3, f, 2, p0.z, p1.z, p2.z);
}

// The incoming gradients by the corners' weights, channel by channel of c; they begin at `at`. (It asks for each corner's run: of no channel, that a corner is
// among the runs says nothing.)
#[tactic(auto, using(meshes::specs::Laws::turns_none, meshes::specs::Laws::turns_more, meshes::specs::Laws::turns_ended), unfolding(crate::specs::Additions::to_val))]
fn add_values(dval: &mut [f32], c: usize, f: Face, bc: Weights, dldw: &[f32], at: usize)
    requires run0 { f.v0 * c + c ≤ length dval.old }
    requires run1 { f.v1 * c + c ≤ length dval.old }
    requires run2 { f.v2 * c + c ≤ length dval.old }
    requires incoming { at + c ≤ length dldw.now }
    ensures { dval.new ≡ summed dval.old (to_val c (face_of f) (incoming_at dldw.now at) (weights_of bc)) }
{
    for j in 0..c {
        let d = dldw[at + j];
        add_three(dval, c, f, j, d * bc.b0, d * bc.b1, d * bc.b2);
    }
}

impl Backward<'_> {
    ghost use Rattle.pixel_bwd.specs.Answer.{held, SameSums};

    // What one pixel adds: what it shows, x and y of its ray, and where its channels begin.
    #[tactic(auto, using(vertex_values::specs::Laws::run_there), unfolding(crate::specs::Additions::pixel_xyz, crate::specs::Additions::pixel_val, meshes::specs::Sums::summed))]
    pub fn add_pixel(&mut self, shown: Option<Face>, m: &[f32; 16], x: f32, y: f32, at: usize)
        requires among { IfSome shown (λ f. Among (length self.old.vertices.now.vtx2xyz.now / 3) (face_of f)) }
        requires run { at + self.old.vertices.now.num_vdim ≤ length self.old.dldw.now }
        ensures same { SameSums self.old self.new }
        ensures added { held self.new
            ≡ pixel_sums (vertices_of self.old.vertices.now) (maybe_face shown) (ray_at m.now x y) (incoming_at self.old.dldw.now at) (held self.old) }
    {
        let Some(f) = shown else {
            return;
        };
        let Some(r) = rays::ray_at(m, x, y) else {
            return;
        };
        let g = pixel_gradients::gradients_at(self.vertices, f, r, self.dldw, at);
        add_shares(self.dxyz, f, g.to);
        add_values(self.dval, self.vertices.num_vdim, f, g.bc, self.dldw, at);
    }
}
