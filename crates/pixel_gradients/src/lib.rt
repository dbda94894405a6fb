// The backward pass of values at one pixel: its gradients, with nothing written. No function here is a public call.
#![tactic(auto)]

ghost use Rattle.std.specs.Prelude.{◌≡◌, ◌+◌, ◌/◌, ◌≤◌, length};
ghost use Rattle.geometry.specs.Answer.{weights_of};
ghost use Rattle.rays.specs.Answer.{ray_of};
ghost use Rattle.rays_bwd.specs.Answer.{gradients_of};
ghost use Rattle.meshes.specs.Mesh.{Among};
ghost use Rattle.meshes.specs.Answer.{face_of};
ghost use Rattle.vertex_values.specs.Answer.{vertices_of};
ghost use Rattle.pixel_gradients.specs.Gradients.{incoming_at, incoming, gradients_at};

use geometry::Weights;
use meshes::Face;
use rays::Ray;
use rays_bwd::Gradients;
use vertex_values::Vertices;

// The gradients of the three weights; the pixel's channels begin at `at`.
#[tactic(auto, using(crate::specs::Laws::gathered_none, crate::specs::Laws::gathered_more), unfolding(crate::specs::Gradients::incoming))]
fn gather(vertices: &Vertices, f: Face, dldw: &[f32], at: usize) -> Weights
    requires among { Among (length vertices.now.vtx2xyz.now / 3) (face_of f) }
    requires run { at + vertices.now.num_vdim ≤ length dldw.now }
    ensures { weights_of result ≡ incoming (vertices_of vertices.now) (face_of f) (incoming_at dldw.now at) }
{
    let mut b = Weights {
        b0: 0.0,
        b1: 0.0,
        b2: 0.0,
    };
    for j in 0..vertices.num_vdim {
        let d = dldw[at + j];
        b.b0 += vertices.value(f.v0, j) * d;
        b.b1 += vertices.value(f.v1, j) * d;
        b.b2 += vertices.value(f.v2, j) * d;
    }
    b
}

// The gradients at a pixel that shows the face f; its channels begin at `at`.
#[tactic(auto, unfolding(crate::specs::Gradients::gradients_at, crate::specs::Gradients::backward))]
pub fn gradients_at(vertices: &Vertices, f: Face, r: Ray, dldw: &[f32], at: usize) -> Gradients
    requires among { Among (length vertices.now.vtx2xyz.now / 3) (face_of f) }
    requires run { at + vertices.now.num_vdim ≤ length dldw.now }
    ensures { gradients_of result ≡ gradients_at (vertices_of vertices.now) (face_of f) (ray_of r) (incoming_at dldw.now at) }
{
    let b = gather(vertices, f, dldw, at);
    let p = meshes::corners(vertices.vtx2xyz, f);
    rays_bwd::plane_backward(p, r, 0.0, b.b1 - b.b0, b.b2 - b.b0)
}
