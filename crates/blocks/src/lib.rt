// Visits of pixels: of one, and of four of a column, which are left out where they cannot change the layer. No function here is a public call.
#![tactic(auto)]

ghost use Rattle.std.specs.Prelude.{◌≡◌, ◌||◌, [], ◌∷◌, ◌+◌, ◌*◌, ◌≤◌, ◌<◌, get_or};
ghost use Rattle.std.specs.Float.{nan};
ghost use Rattle.std.specs.Float.Ieee.{lt};
ghost use Rattle.offers.specs.Offer.{lowest};
ghost use Rattle.cells.specs.Lent.{held, SameBuffers};
ghost use Rattle.pixels.specs.Pixel.{centre};
ghost use Rattle.rules.specs.Visits.{visited};
ghost use Rattle.blocks.specs.Brush.{brush_cells};
ghost use Rattle.blocks.specs.Rows.{rows_down, up_to};
ghost use Rattle.blocks.specs.Greater.{if_greater, two_if_greater, four_if_greater};

use cells::{Cell, LayerMut};
use geometry::{Triangle, Vec2, Vec3};
use lanes::Side;
use pixels::Pixel;

// What the scan of a piece draws with: its corners on the screen, the sums that it counts, and the number of its face.
#[derive(Clone, Copy)]
pub struct Brush {
    pub screen: Triangle<Vec3>,
    pub side: Side,
    pub number: u32,
}

// The visit of a pixel: it is brought the depth that the piece has there and its weights, if any, and if it counts.
pub fn visit(layer: &mut LayerMut, b: &Brush, p: Pixel)
    requires in_row { p.x < layer.old.size.w }
    requires in_column { p.y < layer.old.size.h }
    ensures same { SameBuffers layer.old layer.new }
    ensures visited { held layer.new ≡ visited (brush_cells b.now layer.old.size.w) ((p.y * layer.old.size.w + p.x) ∷ []) (held layer.old) }
{
    let s = b.screen;
    let corners = Triangle {
        p0: geometry::flat(s.p0),
        p1: geometry::flat(s.p1),
        p2: geometry::flat(s.p2),
    };
    let Some(found) = geometry::corner_weights(pixels::centre_of(p), corners) else {
        return;
    };
    if !b.side.counts(found.s) {
        return;
    }
    if lanes::dropped(found.b) {
        return;
    }
    let depth = geometry::blend(found.b, s.p0.z, s.p1.z, s.p2.z);
    let cell = Cell {
        depth,
        number: b.number,
        weights: found.b,
    };
    layer.put(layer.size.number(p), cell);
}

// The same visit, left out where z is not greater than the stored depth.
#[tactic(auto, unfolding(crate::specs::Greater::if_greater))]
fn visit_if_greater(layer: &mut LayerMut, b: &Brush, p: Pixel, z: f32)
    requires in_row { p.x < layer.old.size.w }
    requires in_column { p.y < layer.old.size.h }
    ensures same { SameBuffers layer.old layer.new }
    ensures visited { held layer.new ≡ if_greater (brush_cells b.now layer.old.size.w) (p.y * layer.old.size.w + p.x) z (held layer.old) }
{
    if layer.pix2depth[layer.size.number(p)] < z {
        visit(layer, b, p);
    }
}

// The same for two pixels, one below the other.
#[tactic(auto, unfolding(crate::specs::Greater::two_if_greater))]
fn visit_two(layer: &mut LayerMut, b: &Brush, p: Pixel, z0: f32, z1: f32)
    requires in_row { p.x < layer.old.size.w }
    requires in_column { p.y + 2 ≤ layer.old.size.h }
    ensures same { SameBuffers layer.old layer.new }
    ensures visited { held layer.new ≡ two_if_greater (brush_cells b.now layer.old.size.w) layer.old.size.w p.x p.y z0 z1 (held layer.old) }
{
    visit_if_greater(layer, b, p, z0);
    visit_if_greater(layer, b, Pixel { x: p.x, y: p.y + 1 }, z1);
}

// Whether one of the four can be greater than a stored depth.
#[tactic(auto, using(lanes::proofs::Sides::minus_infinity))]
fn some_offer(z0: f32, z1: f32, z2: f32, z3: f32) -> bool
    ensures { result ≡ lt lowest z0 || (lt lowest z1 || (lt lowest z2 || lt lowest z3)) }
{
    let none = f32::NEG_INFINITY;
    none < z0 || none < z1 || none < z2 || none < z3
}

// The same for four pixels downwards, one after the other. Memory is not touched where none can be greater.
#[tactic(auto, using(crate::proofs::Four::four_left_out), unfolding(crate::specs::Greater::four_if_greater))]
fn visit_greater(layer: &mut LayerMut, b: &Brush, p: Pixel, z0: f32, z1: f32, z2: f32, z3: f32)
    requires in_row { p.x < layer.old.size.w }
    requires in_column { p.y + 4 ≤ layer.old.size.h }
    ensures same { SameBuffers layer.old layer.new }
    ensures visited { held layer.new ≡ four_if_greater (brush_cells b.now layer.old.size.w) layer.old.size.w p.x p.y z0 z1 z2 z3 (held layer.old) }
{
    if !some_offer(z0, z1, z2, z3) {
        return;
    }
    visit_two(layer, b, p, z0, z1);
    visit_two(layer, b, Pixel { x: p.x, y: p.y + 2 }, z2, z3);
}

// Four rows of p's column from p on, as far as they are before y1: the pixels where a lane's depth can be greater than what is stored are visited. The four
// lanes stand together, so that a compiler can work them out side by side; today's takes them one after another. q is the centre of the first; a visit works
// its own out anew, since to share it would tear the four apart.
pub fn visit_four(layer: &mut LayerMut, b: &Brush, p: Pixel, y1: usize, q: Vec2)
    requires in_row { p.x < layer.old.size.w }
    requires in_column { p.y + 4 ≤ layer.old.size.h }
    requires some { p.y < y1 }
    requires most { y1 ≤ layer.old.size.h }
    requires column { q.x ≡ centre p.x }
    requires row { q.y ≡ centre p.y }
    ensures same { SameBuffers layer.old layer.new }
    ensures visited { held layer.new ≡ visited (brush_cells b.now layer.old.size.w) (rows_down layer.old.size.w p.x p.y (up_to y1 (p.y + 4))) (held layer.old) }
{
    let end = pixels::centre(y1 - 1);
    let q1 = q.y + 1.0;
    let q2 = q.y + 2.0;
    let q3 = q.y + 3.0;
    let z0 = lanes::lane(b.screen, b.side, q);
    let z1 = lanes::lane(b.screen, b.side, Vec2 { x: q.x, y: q1 });
    let z2 = lanes::lane(b.screen, b.side, Vec2 { x: q.x, y: q2 });
    let z3 = lanes::lane(b.screen, b.side, Vec2 { x: q.x, y: q3 });
    let m0 = lanes::up_to(end, q.y, z0);
    let m1 = lanes::up_to(end, q1, z1);
    let m2 = lanes::up_to(end, q2, z2);
    let m3 = lanes::up_to(end, q3, z3);
    visit_greater(layer, b, p, m0, m1, m2, m3);
}
