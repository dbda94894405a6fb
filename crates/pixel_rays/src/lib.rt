// The face that a pixel shows and its ray, with question 8 of the passes that follow the rays.
// Nothing here writes, and no function here is a public call.
#![tactic(auto)]

ghost use Rattle.std.specs.Prelude.{◌≡◌, List, [], ℕ, ◌+◌, ◌*◌, ◌/◌, ◌<◌, length, IfSome};
ghost use Rattle.lists.specs.Lists.{every, span};
ghost use Rattle.meshes.specs.Mesh.{Among};
ghost use Rattle.meshes.specs.View.{view_of};
ghost use Rattle.meshes.specs.Answer.{face_of, maybe_face};
ghost use Rattle.rays.specs.Pixel.{row_at};
ghost use Rattle.rays.specs.Answer.{pixel_ray_of};
ghost use Rattle.pixel_rays.specs.Rays.{image, ray_of, answered, rays_answer};
ghost use Rattle.pixel_rays.specs.Answer.{shown, number};

use meshes::{Face, View};
use pixels::{ImageSize, Pixel};
use questions::EMPTY;
use rays::Ray;

// The face that a pixel shows, none where it is empty.
#[tactic(auto, using(crate::specs::Laws::entry_seen))]
pub fn face(view: &View, p: Pixel) -> Option<Face>
    requires in_row { p.x < view.now.size.w }
    requires in_column { p.y < view.now.size.h }
    ensures face { maybe_face result ≡ (shown view.now).at (number view.now p) }
    ensures among { IfSome result (λ f. Among (length view.now.mesh.vtx2xyz.now / 3) (face_of f)) }
{
    view.mesh.named(view.entry(p))
}

// The ray of a pixel, whose row is at y.
#[tactic(auto, using(crate::specs::Laws::ray_seen))]
fn ray(size: ImageSize, m: &[f32; 16], p: Pixel, y: f32) -> Option<Ray>
    requires in_row { p.x < size.w }
    requires row { y ≡ row_at size.h p.y }
    ensures { pixel_ray_of result ≡ ray_of (image size.w size.h m.now) (p.y * size.w + p.x) }
{
    rays::ray_at(m, rays::column_at(size.w, p.x), y)
}

// Question 8 of a pixel, whose row is at y.
#[tactic(auto, using(meshes::specs::Laws::entry_read), unfolding(meshes::specs::View::named, crate::specs::Rays::answered))]
fn pixel_ok(size: ImageSize, m: &[f32; 16], pix2tri: &[u32], p: Pixel, y: f32) -> bool
    requires map { length pix2tri.now ≡ size.w * size.h }
    requires in_row { p.x < size.w }
    requires in_column { p.y < size.h }
    requires row { y ≡ row_at size.h p.y }
    ensures { let n = p.y * size.w + p.x in
        result ≡ answered ((view_of [] pix2tri.now).at n) (ray_of (image size.w size.h m.now) n) }
{
    pix2tri[size.number(p)] == EMPTY || ray(size, m, p, y).is_some()
}

// Question 8 of row iy.
fn row_ok(size: ImageSize, m: &[f32; 16], pix2tri: &[u32], iy: usize) -> bool
    requires map { length pix2tri.now ≡ size.w * size.h }
    requires in_image { iy < size.h }
    ensures { result ≡ every (λ p. answered ((view_of [] pix2tri.now).at p) (ray_of (image size.w size.h m.now) p)) (span (iy * size.w) size.w) }
{
    let y = rays::row_at(size.h, iy);
    (0..size.w).all(|ix| pixel_ok(size, m, pix2tri, Pixel { x: ix, y: iy }, y))
}

// Question 8 of a map. It is the same for any faces: it asks which pixels are empty.
pub fn rays_ok(size: ImageSize, m: &[f32; 16], pix2tri: &[u32]) -> bool
    requires { length pix2tri.now ≡ size.w * size.h }
    ensures { (tri : List ℕ) → result ≡ rays_answer (image size.w size.h m.now) (view_of tri pix2tri.now) }
{
    (0..size.h).all(|iy| row_ok(size, m, pix2tri, iy))
}
