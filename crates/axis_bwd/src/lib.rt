// What an axis's pairs of pixels add, one after the other. No function here is a public call.
#![tactic(auto)]

ghost use Rattle.std.specs.Prelude.{◌≡◌, true, ◌+◌, ◌*◌, ◌≤◌, ◌<◌, length};
ghost use Rattle.meshes.specs.Sums.{summed};
ghost use Rattle.pairs.specs.Pairs.{all_answered};
ghost use Rattle.pairs.specs.Answer.{axis_of, seen_of};
ghost use Rattle.pairs.specs.Values.{values_of};
ghost use Rattle.axis_bwd.specs.Additions.{column_additions, axis_additions};

use pairs::PixelValues;
use pixels::Pixel;
use share_rules::AxisPairs;

// The pairs whose first pixels lie in column x, from the top.
#[tactic(auto, using(meshes::specs::Laws::turns_none, meshes::specs::Laws::turns_more), unfolding(crate::specs::Additions::column_additions))]
fn scatter_column(sums: &mut [f32], pairs: &AxisPairs, values: &PixelValues, x: usize)
    requires in_row { x + pairs.now.axis.right < pairs.now.view.size.w }
    requires rows { pairs.now.axis.down ≤ pairs.now.view.size.h }
    requires answered { all_answered (axis_of pairs.now.axis) pairs.now.view.size.h (seen_of pairs.now.view) ≡ true }
    requires pixels { values.now.pixels ≡ pairs.now.view.size.w * pairs.now.view.size.h }
    requires lent { length sums.old ≡ length pairs.now.view.mesh.vtx2xyz.now }
    ensures { sums.new
        ≡ summed sums.old (column_additions (axis_of pairs.now.axis) pairs.now.view.size.h (seen_of pairs.now.view) (values_of values.now) x) }
{
    for y in 0..pairs.view.size.h - pairs.axis.down {
        shares::scatter_pair(sums, pairs, values, Pixel { x, y });
    }
}

// Column by column.
#[tactic(auto, using(meshes::specs::Laws::turns_none, meshes::specs::Laws::turns_more, crate::proofs::Turns::by_columns))]
pub fn scatter_axis(sums: &mut [f32], pairs: &AxisPairs, values: &PixelValues)
    requires columns { pairs.now.axis.right ≤ pairs.now.view.size.w }
    requires rows { pairs.now.axis.down ≤ pairs.now.view.size.h }
    requires answered { all_answered (axis_of pairs.now.axis) pairs.now.view.size.h (seen_of pairs.now.view) ≡ true }
    requires pixels { values.now.pixels ≡ pairs.now.view.size.w * pairs.now.view.size.h }
    requires lent { length sums.old ≡ length pairs.now.view.mesh.vtx2xyz.now }
    ensures { sums.new
        ≡ summed sums.old (axis_additions (axis_of pairs.now.axis) pairs.now.view.size.h (seen_of pairs.now.view) (values_of values.now)) }
{
    for x in 0..pairs.view.size.w - pairs.axis.right {
        scatter_column(sums, pairs, values, x);
    }
}
