// The faces of a mesh that are not marked as removed, drawn on a layer. The shortened list is nowhere in memory. No function here is a public call.
#![tactic(auto)]

ghost use Rattle.std.specs.Prelude.{◌≡◌, ◌+◌, ◌/◌, ◌≤◌, length, drop};
ghost use Rattle.questions.specs.Questions.{most_count};
ghost use Rattle.offers.specs.Thinning.{kept_from};
ghost use Rattle.cells.specs.Lent.{held, SameBuffers};
ghost use Rattle.meshes.specs.Mesh.{faces_of};
ghost use Rattle.rules.specs.Offers.{scene};
ghost use Rattle.rules.specs.Draw.{drawn};
ghost use Rattle.removal_rules.specs.Removal.{kept_by};
ghost use Rattle.kept_faces.specs.Run.{kept_run};

use cells::LayerMut;
use meshes::Mesh;
use rules::Facing;

// Where the run of kept faces that begins at face i ends: at the next removed face, or after the last.
fn run_end(removed: &[u8], i: usize) -> usize
    requires { i ≤ length removed.now }
    ensures { result ≡ i + kept_run (drop i removed.now) }
{
    for end in i..removed.len() {
        if removed[end] != 0 {
            return end;
        }
    }
    removed.len()
}

// The kept faces, numbered from 0: one run after the other, each a part of the face list, drawn as any list is. A turn goes on behind the run, so it is no
// `for`.
pub fn draw_kept_faces(
    layer: &mut LayerMut,
    mesh: &Mesh,
    m: &[f32; 16],
    removed: &[u8],
    facing: Facing,
)
    requires count { length mesh.now.tri2vtx.now / 3 ≤ most_count }
    requires marks { length removed.now ≡ length mesh.now.tri2vtx.now / 3 }
    ensures same { SameBuffers layer.old layer.new }
    ensures drawn { held layer.new
        ≡ drawn (scene m.now mesh.now.vtx2xyz.now layer.old.size.w layer.old.size.h facing) (kept_from (kept_by removed.now) 0 (faces_of mesh.now.tri2vtx.now)) 0 (held layer.old) }
{
    let mut i: usize = 0;
    let mut number: u32 = 0;
    while i < removed.len() {
        let end = run_end(removed, i);
        let run = Mesh {
            tri2vtx: &mesh.tri2vtx[3 * i..3 * end],
            vtx2xyz: mesh.vtx2xyz,
        };
        faces::draw_faces(layer, &run, m, number, facing);
        number += (end - i) as u32;
        i = end + 1;
    }
}
