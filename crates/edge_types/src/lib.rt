// The type of a pair of neighbouring pixels, and the loop over an axis's pairs, row by row. No function here is a public call.
#![tactic(auto)]

mod buffers;

ghost use Rattle.std.specs.Prelude.{◌≡◌, true, ◌||◌, ◌+◌, ◌*◌, ◌/◌, ◌≤◌, ◌<◌, length};
ghost use Rattle.questions.specs.Questions.{names_face};
ghost use Rattle.geometry.specs.Answer.{point2};
ghost use Rattle.meshes.specs.View.{named};
ghost use Rattle.pixels.specs.Edge.{edge_count};
ghost use Rattle.inside.specs.Inside.{all_inside, contains};
ghost use Rattle.pairs.specs.Steps.{Within, PairAt};
ghost use Rattle.pairs.specs.Answer.{axis_of, edge_of, seen_of};
ghost use Rattle.pairs.specs.Values.{values_of};
ghost use Rattle.edge_types.specs.Types.{type_of};
ghost use Rattle.edge_types.specs.Axis.{edges_of};
ghost use Rattle.edge_types.specs.Steps.{row_filled};
ghost use Rattle.edge_types.specs.Lent.{held, SameBuffers};

pub use buffers::AxisBuffers;
use geometry::Vec2;
use meshes::View;
use pairs::{Pair, PixelValues};
use pixels::{Axis, Pixel};

// Is at least one of two pixels' centres inside what the other pixel shows? q0 is the first one's.
fn one_inside(view: &View, pair: Pair, q0: Vec2, q1: Vec2) -> bool
    requires first { names_face (length view.now.mesh.tri2vtx.now / 3) pair.first ≡ true }
    requires second { names_face (length view.now.mesh.tri2vtx.now / 3) pair.second ≡ true }
    ensures { result ≡ (contains all_inside view.now.m.now view.now.mesh.vtx2xyz.now (named view.now.mesh.tri2vtx.now pair.second) (point2 q0)
        || contains all_inside view.now.m.now view.now.mesh.vtx2xyz.now (named view.now.mesh.tri2vtx.now pair.first) (point2 q1)) }
{
    inside::contains(&view.mesh, view.m, view.mesh.named(pair.second), q0)
        || inside::contains(&view.mesh, view.m, view.mesh.named(pair.first), q1)
}

// The type of the pair whose first pixel is p.
#[tactic(auto, unfolding(crate::specs::Types::type_of, crate::specs::Types::first_in_second, crate::specs::Types::second_in_first))]
fn edge_type(view: &View, pair: Pair, p: Pixel, axis: Axis) -> u8
    requires within { Within view.now.size.w view.now.size.h axis.right axis.down p.x p.y }
    requires pair { PairAt view.now.pix2tri.now view.now.size.w view.now.size.h (edge_of axis p) pair }
    requires first { names_face (length view.now.mesh.tri2vtx.now / 3) pair.first ≡ true }
    requires second { names_face (length view.now.mesh.tri2vtx.now / 3) pair.second ≡ true }
    ensures { result ≡ type_of (seen_of view.now) (edge_of axis p) }
{
    if pair.first == pair.second {
        return 0;
    }
    let q0 = pixels::centre_of(p);
    let q1 = pixels::centre_of(pairs::neighbour(p, axis));
    u8::from(one_inside(view, pair, q0, q1))
}

// The type and `dldr` of the pairs of an axis whose first pixels lie in row y.
fn fill_row(view: &View, values: &PixelValues, buffers: &mut AxisBuffers, axis: Axis, y: usize)
    requires pixels { values.now.pixels ≡ view.now.size.w * view.now.size.h }
    requires count { length buffers.old.types.now ≡ edge_count (axis_of axis) view.now.size.w view.now.size.h }
    requires columns { axis.right ≤ view.now.size.w }
    requires row { y + axis.down < view.now.size.h }
    ensures same { SameBuffers buffers.old buffers.new }
    ensures filled { held buffers.new ≡ row_filled (axis_of axis) y (seen_of view.now) (values_of values.now) (held buffers.old) }
{
    let columns = view.size.w - axis.right;
    for x in 0..columns {
        let p = Pixel { x, y };
        let pair = pairs::seen_pair(view, p, axis);
        let kind = edge_type(view, pair, p, axis);
        let dldr = values.dldr(pair.p, pair.q);
        buffers.put(y * columns + x, kind, dldr);
    }
}

// The type and `dldr` of every pair of an axis.
pub fn fill_axis(view: &View, values: &PixelValues, buffers: &mut AxisBuffers, axis: Axis)
    requires columns { axis.right ≤ view.now.size.w }
    requires rows { axis.down ≤ view.now.size.h }
    requires pixels { values.now.pixels ≡ view.now.size.w * view.now.size.h }
    requires count { length buffers.old.types.now ≡ edge_count (axis_of axis) view.now.size.w view.now.size.h }
    ensures same { SameBuffers buffers.old buffers.new }
    ensures filled { held buffers.new ≡ edges_of (axis_of axis) view.now.size.h (seen_of view.now) (values_of values.now) }
{
    for y in 0..view.size.h - axis.down {
        fill_row(view, values, buffers, axis, y);
    }
}
