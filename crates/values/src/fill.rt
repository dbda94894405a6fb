// The loops of `interpolate`: each pixel's run of channels is lent to the writer of one pixel.
ghost use Rattle.std.specs.Prelude.{◌≡◌, ◌*◌, ◌<◌, length};
ghost use Rattle.pixel_rays.specs.Answer.{image_of, shown};
ghost use Rattle.vertex_values.specs.Answer.{vertices_of};
ghost use Rattle.values.specs.Interpolate.{value_in, interpolated};
ghost use Rattle.values.specs.Filled.{filled};

use meshes::View;
use pixels::Pixel;
use vertex_values::Pass;

// The values of row iy.
fn row_values(pix2val: &mut [f32], pass: &Pass, iy: usize)
    requires whole { length pix2val.old ≡ pass.now.view.size.w * pass.now.view.size.h * pass.now.vertices.num_vdim }
    requires in_image { iy < pass.now.view.size.h }
    ensures { pix2val.new ≡ filled (value_in (image_of pass.now.view) (vertices_of pass.now.vertices) (shown pass.now.view))
        (iy * pass.now.view.size.w * pass.now.vertices.num_vdim) (pass.now.view.size.w * pass.now.vertices.num_vdim) pix2val.old }
{
    let View { size, m, .. } = pass.view;
    let c = pass.vertices.num_vdim;
    let y = rays::row_at(size.h, iy);
    for ix in 0..size.w {
        let p = Pixel { x: ix, y: iy };
        let at = size.number(p) * c;
        let shown = pixel_rays::face(&pass.view, p);
        let x = rays::column_at(size.w, ix);
        pixel_values::fill_pixel(&mut pix2val[at..at + c], &pass.vertices, shown, m, x, y);
    }
}

// The values of every row.
pub fn image_values(pix2val: &mut [f32], pass: &Pass)
    requires { length pix2val.old ≡ pass.now.view.size.w * pass.now.view.size.h * pass.now.vertices.num_vdim }
    ensures { pix2val.new ≡ interpolated (image_of pass.now.view) (vertices_of pass.now.vertices) (shown pass.now.view) pix2val.old }
{
    for iy in 0..pass.view.size.h {
        row_values(pix2val, pass, iy);
    }
}
