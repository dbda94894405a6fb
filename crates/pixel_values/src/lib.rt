// The values of one pixel, into the run of channels that is lent. No function here is a public call.
#![tactic(auto)]

ghost use Rattle.std.specs.Prelude.{◌≡◌, ◌/◌, length, get_or, IfSome};
ghost use Rattle.std.specs.Float.{nan};
ghost use Rattle.lists.specs.Lists.{tabulate};
ghost use Rattle.geometry.specs.Answer.{weights_of};
ghost use Rattle.meshes.specs.Mesh.{Among};
ghost use Rattle.meshes.specs.Answer.{face_of, maybe_face};
ghost use Rattle.rays.specs.Pixel.{ray_at};
ghost use Rattle.vertex_values.specs.Answer.{vertices_of};
ghost use Rattle.pixel_values.specs.Pixel.{blend_of, value_at};

use geometry::Weights;
use meshes::Face;
use vertex_values::Vertices;

// A pixel's channels: those of the corners of f by their weights.
#[tactic(auto, unfolding(crate::specs::Pixel::blend_of))]
fn blend_run(val: &mut [f32], vertices: &Vertices, f: Face, b: Weights)
    requires among { Among (length vertices.now.vtx2xyz.now / 3) (face_of f) }
    requires whole { length val.old ≡ vertices.now.num_vdim }
    ensures { val.new ≡ tabulate (blend_of (vertices_of vertices.now) (face_of f) (weights_of b)) 0 vertices.now.num_vdim }
{
    for (j, x) in val.iter_mut().enumerate() {
        *x = geometry::blend(
            b,
            vertices.value(f.v0, j),
            vertices.value(f.v1, j),
            vertices.value(f.v2, j),
        );
    }
}

// The channels of a pixel: what it shows, and x and y of its ray.
#[tactic(auto, unfolding(crate::specs::Pixel::value_at))]
pub fn fill_pixel(
    val: &mut [f32],
    vertices: &Vertices,
    shown: Option<Face>,
    m: &[f32; 16],
    x: f32,
    y: f32,
)
    requires among { IfSome shown (λ f. Among (length vertices.now.vtx2xyz.now / 3) (face_of f)) }
    requires whole { length val.old ≡ vertices.now.num_vdim }
    ensures { val.new ≡ tabulate (λ j. value_at (vertices_of vertices.now) (maybe_face shown) (ray_at m.now x y) j (get_or val.old j nan)) 0 vertices.now.num_vdim }
{
    let Some(f) = shown else {
        return;
    };
    let Some(r) = rays::ray_at(m, x, y) else {
        return;
    };
    let b = rays::plane_weights(meshes::corners(vertices.vtx2xyz, f), r);
    blend_run(val, vertices, f, b);
}
