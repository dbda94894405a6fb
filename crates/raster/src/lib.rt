// Drawing a face on a layer by its projected corners: its pieces, each off the image or by the scan of its box. No function here is a public call.
#![tactic(auto)]

ghost use Rattle.std.specs.Prelude.{◌≡◌, ◌*◌};
ghost use Rattle.cells.specs.Lent.{held, SameBuffers};
ghost use Rattle.corners.specs.Answer.{corner_of};
ghost use Rattle.rules.specs.Piece.{corners_pieces};
ghost use Rattle.rules.specs.Draw.{painted};
ghost use Rattle.rules.specs.Visits.{piece_cells, stopped_after};
ghost use Rattle.pieces.specs.Answer.{piece_of, pieces_of};
ghost use Rattle.raster.specs.Face.{pieces_cells};

use blocks::Brush;
use cells::LayerMut;
use corners::Corner;
use geometry::Triangle;
use lanes::Side;
use pieces::Pieces;
use rules::Facing;

// The Rust's rasterize_projected_tri: one piece, off the image, or the scan of its box; stopped after n visits. The three corners travel as an array of arrays,
// by value; whether they are listed turned round stands beside.
pub fn rasterize_projected_tri(
    layer: &mut LayerMut,
    number: u32,
    ndc: [[f32; 3]; 3],
    turned: bool,
    n: usize,
    facing: Facing,
)
    ensures same { SameBuffers layer.old layer.new }
    ensures stopped { held layer.new ≡ stopped_after n facing layer.old.size.w layer.old.size.h (piece_of turned ndc) number (held layer.old) }
{
    let size = layer.size;
    let corners = pieces::corners(ndc);
    if !boxes::meets_image(size, corners) {
        return;
    }
    let screen = boxes::screened(size.w, size.h, corners);
    let Some(area) = boxes::box_of(size.w, size.h, screen) else {
        return;
    };
    let side = Side::of(facing, turned);
    let brush = Brush {
        screen,
        side,
        number,
    };
    scan::visit_box(layer, &brush, area, n);
}

// One piece, whole: the scan may make as many visits as the largest image has pixels.
fn draw_piece(layer: &mut LayerMut, number: u32, ndc: [[f32; 3]; 3], turned: bool, facing: Facing)
    ensures same { SameBuffers layer.old layer.new }
    ensures painted { held layer.new
        ≡ painted (piece_cells facing layer.old.size.w layer.old.size.h (piece_of turned ndc) number) (layer.old.size.w * layer.old.size.h) (held layer.old) }
{
    rasterize_projected_tri(layer, number, ndc, turned, 16_777_216, facing);
}

fn draw_pieces(layer: &mut LayerMut, number: u32, pieces: Pieces, facing: Facing)
    ensures same { SameBuffers layer.old layer.new }
    ensures painted { held layer.new
        ≡ painted (pieces_cells facing layer.old.size.w layer.old.size.h (pieces_of pieces) number) (layer.old.size.w * layer.old.size.h) (held layer.old) }
{
    match pieces {
        Pieces::Nothing => {}
        Pieces::Whole(t) => draw_piece(layer, number, pieces::whole(t), false, facing),
        Pieces::One(l) => draw_piece(layer, number, l.one_piece(), l.turned, facing),
        Pieces::Two(l) => {
            let first = l.first_piece();
            draw_piece(layer, number, first, l.turned, facing);
            let second = l.second_piece();
            draw_piece(layer, number, second, l.turned, facing);
        }
    }
}

// The face of three corners, projected and scored: whole, or its pieces.
pub fn draw_corners(
    layer: &mut LayerMut,
    number: u32,
    t11: f32,
    t: Triangle<Corner>,
    facing: Facing,
)
    ensures same { SameBuffers layer.old layer.new }
    ensures painted { held layer.new
        ≡ painted (pieces_cells facing layer.old.size.w layer.old.size.h (corners_pieces t11 (corner_of t.p0) (corner_of t.p1) (corner_of t.p2)) number)
        (layer.old.size.w * layer.old.size.h) (held layer.old) }
{
    if pieces::stays_whole(t11, t) {
        draw_piece(layer, number, pieces::whole(t), false, facing);
        return;
    }
    draw_pieces(layer, number, pieces::clip(t11, t), facing);
}
