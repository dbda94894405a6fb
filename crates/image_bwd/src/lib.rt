// What the pixels of an image add to both accumulators, in rising number. No function here is a public call.
#![tactic(auto)]

ghost use Rattle.std.specs.Prelude.{◌≡◌, ◌*◌, ◌<◌, length};
ghost use Rattle.pixel_bwd.specs.Answer.{held, SameSums};
ghost use Rattle.image_bwd.specs.Answer.{with_pixels};

use meshes::View;
use pixel_bwd::Backward;
use pixels::Pixel;

// The pixels of row iy.
fn add_row(sums: &mut Backward, view: &View, iy: usize)
    requires own { sums.old.vertices.now.vtx2xyz.now ≡ view.now.mesh.vtx2xyz.now }
    requires incoming { length sums.old.dldw.now ≡ view.now.size.w * view.now.size.h * sums.old.vertices.now.num_vdim }
    requires in_image { iy < view.now.size.h }
    ensures same { SameSums sums.old sums.new }
    ensures added { held sums.new ≡ with_pixels view.now sums.old (iy * view.now.size.w) view.now.size.w (held sums.old) }
{
    let View { size, m, .. } = *view;
    let c = sums.vertices.num_vdim;
    let y = rays::row_at(size.h, iy);
    for ix in 0..size.w {
        let p = Pixel { x: ix, y: iy };
        let at = size.number(p) * c;
        let shown = pixel_rays::face(view, p);
        sums.add_pixel(shown, m, rays::column_at(size.w, ix), y, at);
    }
}

// The pixels of every row.
pub fn add_image(sums: &mut Backward, view: &View)
    requires own { sums.old.vertices.now.vtx2xyz.now ≡ view.now.mesh.vtx2xyz.now }
    requires incoming { length sums.old.dldw.now ≡ view.now.size.w * view.now.size.h * sums.old.vertices.now.num_vdim }
    ensures same { SameSums sums.old sums.new }
    ensures added { held sums.new ≡ with_pixels view.now sums.old 0 (view.now.size.w * view.now.size.h) (held sums.old) }
{
    for iy in 0..view.size.h {
        add_row(sums, view, iy);
    }
}
