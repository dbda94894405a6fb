// The box of a piece: its corners on the screen, and the columns and rows of the image that its scan visits, or how many. Values in, values out: no layer
// is known here.
#![tactic(auto)]

pub mod lines;
mod reach;

ghost use Rattle.std.specs.Prelude.{◌≡◌, true, ◌≤◌, MatchOption};
ghost use Rattle.geometry.specs.Answer.{point3, corners_of};
ghost use Rattle.rules.specs.Scan as rule;
ghost use Rattle.boxes.specs.Box.{Meets, Scanned, Unscanned};

use geometry::{Triangle, Vec3};
use lines::{Lines, Span};
use pixels::ImageSize;

// So many columns and so many rows.
#[derive(Clone, Copy)]
pub struct Box {
    pub columns: Span,
    pub rows: Span,
}

// Whether the scan of a piece with these corners can hold a pixel of the image. Pieces off the image leave early: the columns are tested before the rows are
// worked out.
#[tactic(auto, using(crate::proofs::Scans::columns_miss, crate::proofs::Scans::rows_told), unfolding(rules::specs::Scan::screened, rules::specs::Scan::on_screen))]
pub fn meets_image(size: ImageSize, t: Triangle<Vec3>) -> bool
    ensures { Meets (rule.screened size.w size.h (corners_of t)) size.w size.h result }
{
    Lines::columns(size.w).spans_centre(t.p0.x, t.p1.x, t.p2.x)
        && Lines::rows(size.h).spans_centre(t.p0.y, t.p1.y, t.p2.y)
}

// A corner in pixels, with its depth.
#[tactic(auto, unfolding(rules::specs::Scan::on_screen))]
fn on_screen(w: usize, h: usize, p: Vec3) -> Vec3
    requires width { w ≤ 4096 }
    requires height { h ≤ 4096 }
    ensures { point3 result ≡ rule.on_screen w h (point3 p) }
{
    Vec3 {
        x: Lines::columns(w).in_pixels(p.x),
        y: Lines::rows(h).in_pixels(p.y),
        z: p.z,
    }
}

// The corners of a piece in pixels, with their depths.
#[tactic(auto, unfolding(rules::specs::Scan::screened))]
pub fn screened(w: usize, h: usize, t: Triangle<Vec3>) -> Triangle<Vec3>
    requires width { w ≤ 4096 }
    requires height { h ≤ 4096 }
    ensures { corners_of result ≡ rule.screened w h (corners_of t) }
{
    Triangle {
        p0: on_screen(w, h, t.p0),
        p1: on_screen(w, h, t.p1),
        p2: on_screen(w, h, t.p2),
    }
}

// The box that the scan of a piece visits, whose corners are finite: none, where it visits no pixel.
#[tactic(auto, using(crate::proofs::Scans::no_columns, crate::proofs::Scans::no_rows))]
pub fn box_of(w: usize, h: usize, s: Triangle<Vec3>) -> Option<Box>
    requires width { w ≤ 4096 }
    requires height { h ≤ 4096 }
    requires finite { rule.finite_in_pixels (corners_of s) ≡ true }
    ensures { MatchOption result (Unscanned (corners_of s) w h) (λ b. Scanned (corners_of s) w h b) }
{
    let columns = Lines::columns(w).spanned(s.p0.x, s.p1.x, s.p2.x)?;
    let rows = Lines::rows(h).spanned(s.p0.y, s.p1.y, s.p2.y)?;
    Some(Box { columns, rows })
}
