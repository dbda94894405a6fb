// A face as the matrix projects it, and the one test of both edge passes whether it contains a point. No function here is a public call.
#![tactic(auto)]

ghost use Rattle.std.specs.Prelude.{◌≡◌, ◌/◌, ◌<◌, length, IfSome};
ghost use Rattle.geometry.specs.Answer.{point2, weights_of, corner_weights_of, projected_corners};
ghost use Rattle.geometry.specs.Leaf.{project};
ghost use Rattle.std.proofs.Math.Option.{some};
ghost use Rattle.meshes.specs.Mesh.{vertex_at, Among};
ghost use Rattle.meshes.specs.Answer.{face_of, maybe_face};
ghost use Rattle.inside.specs.Inside as spec;
ghost use Rattle.inside.specs.Steps.{all_project};

use geometry::{CornerWeights, Projected, Triangle, Vec2, Weights};
use meshes::{Face, Mesh};

#[tactic(auto, unfolding(crate::specs::Inside::all_at_least_zero))]
fn all_at_least_zero(b: Weights) -> bool
    ensures { result ≡ spec.all_at_least_zero (weights_of b) }
{
    b.b0 >= 0.0 && b.b1 >= 0.0 && b.b2 >= 0.0
}

// The test of both edge passes: the weights are all >= 0, and none means outside.
#[tactic(auto, unfolding(crate::specs::Inside::all_inside))]
pub fn all_inside(weights: Option<CornerWeights>) -> bool
    ensures { result ≡ spec.all_inside (corner_weights_of weights) }
{
    weights.is_some_and(|w| all_at_least_zero(w.b))
}

// The weights of q in the triangle of three projected corners.
#[tactic(auto, unfolding(crate::specs::Inside::weights_in))]
fn weights_in(q: Vec2, t: Triangle<Projected>) -> Option<CornerWeights>
    ensures { corner_weights_of result ≡ spec.weights_in (point2 q) (some (projected_corners t)) }
{
    let corners = Triangle {
        p0: geometry::flat(t.p0.p),
        p1: geometry::flat(t.p1.p),
        p2: geometry::flat(t.p2.p),
    };
    geometry::corner_weights(q, corners)
}

// Does a face contain the point q?
#[tactic(auto, unfolding(crate::specs::Inside::contains, crate::specs::Inside::weights_in, crate::specs::Inside::all_inside))]
pub fn face_contains(mesh: &Mesh, m: &[f32; 16], f: Face, q: Vec2) -> bool
    requires { Among (length mesh.now.vtx2xyz.now / 3) (face_of f) }
    ensures { result ≡ spec.contains spec.all_inside m.now mesh.now.vtx2xyz.now (some (face_of f)) (point2 q) }
{
    mesh.project(m, f)
        .is_some_and(|t| all_inside(weights_in(q, t)))
}

// Does what a pixel shows contain the point q? Where it shows nothing, it does.
#[tactic(auto, unfolding(crate::specs::Inside::contains))]
pub fn contains(mesh: &Mesh, m: &[f32; 16], shown: Option<Face>, q: Vec2) -> bool
    requires { IfSome shown (λ f. Among (length mesh.now.vtx2xyz.now / 3) (face_of f)) }
    ensures { result ≡ spec.contains spec.all_inside m.now mesh.now.vtx2xyz.now (maybe_face shown) (point2 q) }
{
    match shown {
        Some(f) => face_contains(mesh, m, f, q),
        None => true,
    }
}

// Has vertex number `v` a projection?
#[tactic(auto, unfolding(crate::specs::Inside::present))]
fn vertex_projects(vtx2xyz: &[f32], m: &[f32; 16], v: usize) -> bool
    requires { v < length vtx2xyz.now / 3 }
    ensures { result ≡ spec.present (project m.now (vertex_at vtx2xyz.now v)) }
{
    geometry::project(m, meshes::vertex(vtx2xyz, v)).is_some()
}

// Has every vertex a projection? (A loop: the library's `all` reads the matrix anew for each vertex.)
#[tactic(auto, using(lists::specs::Laws::Every::every_none, lists::specs::Laws::Every::every_next), unfolding(crate::specs::Steps::all_project))]
pub fn all_project(vtx2xyz: &[f32], m: &[f32; 16]) -> bool
    ensures { result ≡ all_project m.now vtx2xyz.now }
{
    let n = vtx2xyz.len() / 3;
    for v in 0..n {
        if !vertex_projects(vtx2xyz, m, v) {
            return false;
        }
    }
    true
}

// Has what a pixel shows every projection? Where it shows nothing, there is none to ask.
#[tactic(auto, unfolding(crate::specs::Inside::projects, crate::specs::Inside::present))]
pub fn projects(mesh: &Mesh, m: &[f32; 16], shown: Option<Face>) -> bool
    requires { IfSome shown (λ f. Among (length mesh.now.vtx2xyz.now / 3) (face_of f)) }
    ensures { result ≡ spec.projects m.now mesh.now.vtx2xyz.now (maybe_face shown) }
{
    match shown {
        Some(f) => mesh.project(m, f).is_some(),
        None => true,
    }
}
