// Drawing a face on a layer, and all faces, one after the other. `draw_faces` is lent to the crate that asks the questions first. No function here is a public call.
#![tactic(auto)]

ghost use Rattle.std.specs.Prelude.{◌≡◌, ◌+◌, ◌*◌, ◌/◌, ◌≤◌, ◌<◌, length};
ghost use Rattle.questions.specs.Questions.{most_count};
ghost use Rattle.cells.specs.Lent.{held, SameBuffers};
ghost use Rattle.meshes.specs.Mesh.{face_at, faces_of};
ghost use Rattle.rules.specs.Offers.{scene, face_pieces};
ghost use Rattle.rules.specs.Draw.{painted, drawn};
ghost use Rattle.raster.specs.Face.{pieces_cells};

use cells::LayerMut;
use meshes::Mesh;
use rules::Facing;

// Face number i of the mesh. One with an unprojectable corner is passed over.
fn draw_face(
    layer: &mut LayerMut,
    number: u32,
    mesh: &Mesh,
    m: &[f32; 16],
    i: usize,
    facing: Facing,
)
    requires face { i < length mesh.now.tri2vtx.now / 3 }
    ensures same { SameBuffers layer.old layer.new }
    ensures painted { held layer.new
        ≡ painted (pieces_cells facing layer.old.size.w layer.old.size.h
        (face_pieces (scene m.now mesh.now.vtx2xyz.now layer.old.size.w layer.old.size.h facing) (face_at mesh.now.tri2vtx.now i)) number)
        (layer.old.size.w * layer.old.size.h) (held layer.old) }
{
    let f = mesh.face(i);
    let Some(projected) = mesh.project(m, f) else {
        return;
    };
    let t11 = m[11];
    let t = corners::face_scored(t11, projected);
    raster::draw_corners(layer, number, t11, t, facing);
}

// All faces, numbered from `first`.
pub fn draw_faces(layer: &mut LayerMut, mesh: &Mesh, m: &[f32; 16], first: u32, facing: Facing)
    requires numbers { first + length mesh.now.tri2vtx.now / 3 ≤ most_count }
    ensures same { SameBuffers layer.old layer.new }
    ensures drawn { held layer.new
        ≡ drawn (scene m.now mesh.now.vtx2xyz.now layer.old.size.w layer.old.size.h facing) (faces_of mesh.now.tri2vtx.now) first (held layer.old) }
{
    for i in 0..mesh.face_count() {
        draw_face(layer, first + i as u32, mesh, m, i, facing);
    }
}
