// What one face receives: a gradient in the image, taken back to the world and added to its corners. No function here is a public call.
#![tactic(auto)]

ghost use Rattle.std.specs.Prelude.{◌≡◌, ◌/◌, length};
ghost use Rattle.geometry.specs.Answer.{point2, point3, weights_of};
ghost use Rattle.meshes.specs.Answer.{face_of};
ghost use Rattle.meshes.specs.Mesh.{Among};
ghost use Rattle.meshes.specs.Sums.{summed};
ghost use Rattle.tris.specs.Answer.{corners_in, projected_in};
ghost use Rattle.scattering.specs.Scattering.{to_face, given};

use geometry::{Vec2, Vec3, Weights};
use meshes::Face;
use tris::Tri;

// Each corner of a face by its weight.
#[tactic(auto, using(meshes::specs::Laws::summed_then), unfolding(crate::specs::Scattering::to_face))]
fn add_face(sums: &mut [f32], f: Face, b: Weights, g: Vec3)
    requires { Among (length sums.old / 3) (face_of f) }
    ensures { sums.new ≡ summed sums.old (to_face (face_of f) (weights_of b) (point3 g)) }
{
    meshes::add_vertex(sums, f.v0, rays::scaled3(b.b0, g));
    meshes::add_vertex(sums, f.v1, rays::scaled3(b.b1, g));
    meshes::add_vertex(sums, f.v2, rays::scaled3(b.b2, g));
}

// The gradient g in the image at the point q, to a face and its `Tri`.
#[tactic(auto, unfolding(crate::specs::Scattering::given, crate::specs::Scattering::spread, crate::specs::Scattering::to_point, meshes::specs::Sums::summed))]
pub fn scatter(sums: &mut [f32], m: &[f32; 16], f: Face, tri: Tri, q: Vec2, g: Vec3)
    requires { Among (length sums.old / 3) (face_of f) }
    ensures { sums.new
        ≡ summed sums.old (given m.now (face_of f) (corners_in tri) (projected_in tri) (point2 q) (point3 g)) }
{
    let Some(b) = tri.barycentric_world(q) else {
        return;
    };
    let x = tri.world_pos(b);
    let j = jacobians::jacobian_transform(m, x);
    add_face(sums, f, b, jacobians::mult_mat3_col_major(g, j));
}
