// Velocities of vertices from those on the edges: the public call `interpolate_from_edges`, with C's parameters in C's order.
#![tactic(auto)]

ghost use Rattle.std.specs.Prelude.{◌≡◌, ◌+◌, ◌*◌, ◌/◌, ◌<◌, length};
ghost use Rattle.lists.specs.Lists.{tabulate};
ghost use Rattle.questions.specs.Answer.{code_of};
ghost use Rattle.questions.specs.Questions.{outcome};
ghost use Rattle.questions.specs.Laws.{Sized};
ghost use Rattle.geometry.specs.Answer.{point2};
ghost use Rattle.pixels.specs.Edge.{edge_count, hedge, vedge};
ghost use Rattle.grids.specs.Grid.{sample};
ghost use Rattle.velocity.specs.Velocity.{point_at, velocity_at};
ghost use Rattle.velocity.specs.Calls.{velocity_code, velocities};

use geometry::Vec2;
use grids::Grid;
use pixels::{Axis, ImageSize};
use questions::{MOST_COUNT, Refusal, ask, groups_ok, sizes_ok};

// The velocities on the edges of an image, once questions 1 and 4 are answered yes.
#[derive(Clone, Copy)]
struct EdgeVelocities<'a> {
    size: ImageSize,
    hedge2vy: &'a [f32],
    vedge2vx: &'a [f32],
    ghost sized: { Sized 2 size.w size.h },
    ghost hedges: { length hedge2vy.now ≡ edge_count hedge size.w size.h },
    ghost vedges: { length vedge2vx.now ≡ edge_count vedge size.w size.h },
}

impl EdgeVelocities<'_> {
    // The velocity at a point: x from the pairs side by side, y from those one above the other.
    fn at(&self, p: Vec2) -> Vec2
        ensures x { result.x ≡ sample vedge self.now.size.w self.now.size.h self.now.vedge2vx.now (point2 p) }
        ensures y { result.y ≡ sample hedge self.now.size.w self.now.size.h self.now.hedge2vy.now (point2 p) }
    {
        let vedges = Grid {
            size: self.size,
            axis: Axis::VEDGE,
            values: self.vedge2vx,
        };
        let hedges = Grid {
            size: self.size,
            axis: Axis::HEDGE,
            values: self.hedge2vy,
        };
        Vec2 {
            x: vedges.sample(p),
            y: hedges.sample(p),
        }
    }
}

// Questions 1, 3 and 4.
#[tactic(auto, using(crate::proofs::Calls::sized_wide), unfolding(crate::specs::Calls::velocity_code, questions::specs::Questions::first_no, questions::specs::Questions::exact))]
fn ask_velocity(
    img_w: usize,
    img_h: usize,
    hedge2vy: &[f32],
    vedge2vx: &[f32],
    vtx2xy: &[f32],
    vtx2velo: &[f32],
) -> Result<(), Refusal>
    ensures { code_of result ≡ velocity_code img_w img_h hedge2vy.now vedge2vx.now vtx2xy.now vtx2velo.now }
{
    ask(sizes_ok(2, img_w, img_h), Refusal::Size)?;
    ask(groups_ok(2, MOST_COUNT, vtx2xy.len()), Refusal::Slices)?;
    ask(
        hedge2vy.len() == pixels::edge_count(img_w, img_h, Axis::HEDGE)
            && vedge2vx.len() == pixels::edge_count(img_w, img_h, Axis::VEDGE)
            && vtx2velo.len() == vtx2xy.len(),
        Refusal::Lengths,
    )
}

// Vertex number v.
#[tactic(auto, unfolding(crate::specs::Velocity::point_at))]
fn point(vtx2xy: &[f32], v: usize) -> Vec2
    requires { 2 * v + 1 < length vtx2xy.now }
    ensures { point2 result ≡ point_at vtx2xy.now v }
{
    Vec2 {
        x: vtx2xy[2 * v],
        y: vtx2xy[2 * v + 1],
    }
}

// The velocity of every vertex.
fn fill_velocities(edges: &EdgeVelocities, vtx2xy: &[f32], vtx2velo: &mut [f32])
    requires pairs { 2 * (length vtx2xy.now / 2) ≡ length vtx2xy.now }
    requires lent { length vtx2velo.old ≡ length vtx2xy.now }
    ensures { vtx2velo.new
        ≡ tabulate (velocity_at edges.now.size.w edges.now.size.h edges.now.hedge2vy.now edges.now.vedge2vx.now vtx2xy.now) 0 (length vtx2xy.now) }
{
    for v in 0..vtx2xy.len() / 2 {
        let velo = edges.at(point(vtx2xy, v));
        vtx2velo[2 * v] = velo.x;
        vtx2velo[2 * v + 1] = velo.y;
    }
}

// The velocity at every vertex, between those on the edges around it.
#[tactic(auto, unfolding(crate::specs::Calls::velocities))]
pub fn interpolate_from_edges(
    img_w: usize,
    img_h: usize,
    hedge2vy: &[f32],
    vedge2vx: &[f32],
    vtx2xy: &[f32],
    vtx2velo: &mut [f32],
) -> Result<(), Refusal>
    ensures { outcome (code_of result) vtx2velo.new
        ≡ velocities img_w img_h hedge2vy.now vedge2vx.now vtx2xy.now vtx2velo.old }
{
    ask_velocity(img_w, img_h, hedge2vy, vedge2vx, vtx2xy, vtx2velo)?;
    let size = ImageSize { w: img_w, h: img_h };
    let edges = EdgeVelocities {
        size,
        hedge2vy,
        vedge2vx,
    };
    fill_velocities(&edges, vtx2xy, vtx2velo);
    Ok(())
}
