// The scan of a box: column by column, leftmost first, each from the top; stopped after so many visits.
#![tactic(auto)]

ghost use Rattle.std.specs.Prelude.{◌≡◌, ℕ, ◌+◌, ◌≤◌, ◌<◌, take};
ghost use Rattle.cells.specs.Lent.{held, SameBuffers};
ghost use Rattle.rules.specs.Visits.{visited};
ghost use Rattle.boxes.specs.Box.{Within};
ghost use Rattle.blocks.specs.Brush.{brush_cells};
ghost use Rattle.blocks.specs.Rows.{rows_down, up_to};
ghost use Rattle.scan.specs.Columns.{box_visits};

use blocks::Brush;
use boxes::Box;
use cells::LayerMut;
use geometry::Vec2;
use pixels::Pixel;

// Rows y0 to y1 of column x, one by one.
fn visit_rows(layer: &mut LayerMut, b: &Brush, x: usize, y0: usize, y1: usize)
    requires in_row { x < layer.old.size.w }
    requires within { Within y0 y1 layer.old.size.h }
    ensures same { SameBuffers layer.old layer.new }
    ensures visited { held layer.new ≡ visited (brush_cells b.now layer.old.size.w) (rows_down layer.old.size.w x y0 y1) (held layer.old) }
{
    for y in y0..y1 {
        blocks::visit(layer, b, Pixel { x, y });
    }
}

// Four rows can be visited at once from each row before this one: some are before y1, and all are in the image. One or two rows are left to be visited one
// by one, which is faster.
fn blocks_end(y0: usize, y1: usize, h: usize) -> usize
    requires within { Within y0 y1 h }
    requires most { h ≤ 4096 }
    ensures { (i : ℕ) → i < result → (i < y1) × (i + 4 ≤ h) }
{
    if y1 - y0 <= 2 {
        return 0;
    }
    y1.min(h.saturating_sub(3))
}

// Rows of column x from y0 on, four at a time. Answers the first that is left; those before y1 are visited as far as that.
// The centre is carried along: worked out anew from y, the loop would be turned into one over four blocks at once, which is slower. And the row is counted by
// hand, since it is the answer.
fn visit_blocks(layer: &mut LayerMut, b: &Brush, x: usize, y0: usize, y1: usize) -> usize
    requires in_row { x < layer.old.size.w }
    requires within { Within y0 y1 layer.old.size.h }
    ensures from { y0 ≤ result }
    ensures same { SameBuffers layer.old layer.new }
    ensures visited { held layer.new ≡ visited (brush_cells b.now layer.old.size.w) (rows_down layer.old.size.w x y0 (up_to y1 result)) (held layer.old) }
{
    let end = blocks_end(y0, y1, layer.size.h);
    let mut y = y0;
    let mut q = pixels::centre_of(Pixel { x, y });
    while y < end {
        blocks::visit_four(layer, b, Pixel { x, y }, y1, q);
        y += 4;
        q.y += 4.0;
    }
    y
}

// Rows y0 to y1 of column x: four at a time, and the last ones before the image's edge one by one.
fn visit_column(layer: &mut LayerMut, b: &Brush, x: usize, y0: usize, y1: usize)
    requires in_row { x < layer.old.size.w }
    requires within { Within y0 y1 layer.old.size.h }
    ensures same { SameBuffers layer.old layer.new }
    ensures visited { held layer.new ≡ visited (brush_cells b.now layer.old.size.w) (rows_down layer.old.size.w x y0 y1) (held layer.old) }
{
    let left = visit_blocks(layer, b, x, y0, y1);
    if left < y1 {
        visit_rows(layer, b, x, left, y1);
    }
}

// The pixels of a box, but no more than n visits: where none is left, a column gets no row.
pub fn visit_box(layer: &mut LayerMut, b: &Brush, area: Box, n: usize)
    requires columns { Within area.columns.start area.columns.end layer.old.size.w }
    requires rows { Within area.rows.start area.rows.end layer.old.size.h }
    ensures same { SameBuffers layer.old layer.new }
    ensures visited { held layer.new ≡ visited (brush_cells b.now layer.old.size.w) (take n (box_visits layer.old.size.w area)) (held layer.old) }
{
    let rows = area.rows.end - area.rows.start;
    let mut left = n;
    for x in area.columns.start..area.columns.end {
        let some = left.min(rows);
        visit_column(layer, b, x, area.rows.start, area.rows.start + some);
        left -= some;
    }
}
