// 01, "The questions, in order": the answers that several calls share. Nothing here writes, and no function here is a public call.
#![tactic(auto)]

ghost use Rattle.std.specs.Prelude.{◌≡◌, ◌<◌, cond, Ok, Err};
ghost use Rattle.questions.specs.Questions.{first_no, sizes, channels, groups, slices, edge_slices, bounded, numbers, all_below, names_faces, opening, naming};
ghost use Rattle.questions.specs.Answer.{number_of, code_of};

use std::fmt;

// Why a call refuses: the first question that is answered no, by what it asks about.
#[derive(Clone, Copy, Debug, PartialEq, Eq)]
pub enum Refusal {
    Size = 1,
    Channels = 2,
    Slices = 3,
    Lengths = 4,
    Numbers = 5,
    Vertices = 6,
    Faces = 7,
    Projections = 8,
    Weights = 9,
    Edges = 10,
}

impl fmt::Display for Refusal {
    fn fmt<W: fmt::Write>(&self, f: &mut fmt::Formatter<W>) -> fmt::Result {
        f.write_str(match self {
            Refusal::Size => "the width or the height is out of bounds",
            Refusal::Channels => "there are not from 1 to 16 channels per pixel",
            Refusal::Slices => "a slice does not hold whole groups of numbers, or holds too many",
            Refusal::Lengths => "a buffer does not have its exact length",
            Refusal::Numbers => "the first number plus the face count is above 1,048,576",
            Refusal::Vertices => "a face names a vertex that is not there",
            Refusal::Faces => "the map names a face that is not there",
            Refusal::Projections => "a projection that the pass needs has no answer",
            Refusal::Weights => "the weights of a point that the pass needs have no answer",
            Refusal::Edges => "an outline edge names a vertex that is not there",
        })
    }
}

impl From<Refusal> for u32 {
    fn from(refusal: Refusal) -> u32
        ensures { result ≡ number_of refusal }
    {
        refusal as u32
    }
}

// Refuses where a question is answered no.
pub fn ask(answer: bool, refusal: Refusal) -> Result<(), Refusal>
    ensures { result ≡ cond answer (Ok tt) (Err refusal) }
{
    if answer { Ok(()) } else { Err(refusal) }
}

// The code by which C learns of it: 0, or the question's number.
pub fn code(answer: Result<(), Refusal>) -> u32
    ensures { result ≡ code_of answer }
{
    match answer {
        Ok(()) => 0,
        Err(refusal) => u32::from(refusal),
    }
}

// Pixels of a width or a height, at most.
const MOST_SIZE: usize = 4096;

// Numbers per pixel, at most.
const MOST_CHANNELS: usize = 16;

// Faces or vertices, at most.
pub const MOST_COUNT: usize = 1048576;

// Outline edges, at most: three for each face.
const MOST_EDGES: usize = 3145728;

// The map's entry of a pixel that shows no face.
pub const EMPTY: u32 = 4294967295;

// Question 1: are width and height, in pixels, from `least` to 4,096?
#[tactic(auto, unfolding(crate::specs::Questions::sizes))]
pub fn sizes_ok(least: usize, width: usize, height: usize) -> bool
    ensures { result ≡ sizes least width height }
{
    least <= width && width <= MOST_SIZE && least <= height && height <= MOST_SIZE
}

// Question 2: are channels per pixel from 1 to 16?
#[tactic(auto, unfolding(crate::specs::Questions::channels))]
pub fn channels_ok(count: usize) -> bool
    ensures { result ≡ channels count }
{
    1 <= count && count <= MOST_CHANNELS
}

// Question 3: does a slice of length `len` hold whole groups of `of` numbers, at most `most` of them?
#[tactic(auto, unfolding(crate::specs::Questions::groups))]
pub fn groups_ok(of: usize, most: usize, len: usize) -> bool
    requires { 0 < of }
    ensures { result ≡ groups of most len }
{
    len % of == 0 && len / of <= most
}

// Question 3 of a mesh whose face slice and vertex slice are so long.
pub fn slices_ok(tri: usize, xyz: usize) -> bool
    ensures { result ≡ slices tri xyz }
{
    groups_ok(3, MOST_COUNT, tri) && groups_ok(3, MOST_COUNT, xyz)
}

// Question 3 of outline edges whose slice, and that of their mesh's vertices, are so long.
pub fn edge_slices_ok(edges: usize, xyz: usize) -> bool
    ensures { result ≡ edge_slices edges xyz }
{
    groups_ok(2, MOST_EDGES, edges) && groups_ok(3, MOST_COUNT, xyz)
}

// Question 3 of a face count by itself.
#[tactic(auto, unfolding(crate::specs::Questions::bounded))]
pub fn count_ok(faces: usize) -> bool
    ensures { result ≡ bounded faces }
{
    faces <= MOST_COUNT
}

// Question 5: is `first` plus `faces` at most 1,048,576? The sum is not formed, so it cannot wrap.
#[tactic(auto, unfolding(crate::specs::Questions::numbers, crate::specs::Questions::bounded))]
pub fn numbers_ok(first: u32, faces: usize) -> bool
    ensures { result ≡ numbers first faces }
{
    count_ok(faces) && first as usize <= MOST_COUNT - faces
}

// Question 6, and question 10 of outline edges: is every vertex number below `count`?
pub fn all_below(count: usize, vertices: &[u32]) -> bool
    ensures { result ≡ all_below count vertices.now }
{
    vertices.iter().all(|v| (*v as usize) < count)
}

// Question 7: is every map entry below `count`, or empty? Then one more than it, which wraps to 0 for empty, is at most `count`, and the greatest of these answers for all.
// (No early end, so that several entries are compared at once.)
#[tactic(auto, using(crate::proofs::Greatest::greatest_more))]
pub fn names_faces(count: usize, pix2tri: &[u32]) -> bool
    ensures { result ≡ names_faces count pix2tri.now }
{
    let mut most = 0;
    for entry in pix2tri {
        most = most.max(entry.wrapping_add(1));
    }
    most as usize <= count
}

// Questions 1 to 3.
#[tactic(auto, unfolding(crate::specs::Questions::first_no))]
pub fn ask_opening(w: usize, h: usize, c: usize, tri: usize, xyz: usize) -> Result<(), Refusal>
    ensures { code_of result ≡ first_no (opening w h c tri xyz) }
{
    ask(sizes_ok(1, w, h), Refusal::Size)?;
    ask(channels_ok(c), Refusal::Channels)?;
    ask(slices_ok(tri, xyz), Refusal::Slices)
}

// Questions 6 and 7.
#[tactic(auto, unfolding(crate::specs::Questions::first_no))]
pub fn ask_naming(vertices: usize, tri2vtx: &[u32], pix2tri: &[u32]) -> Result<(), Refusal>
    ensures { code_of result ≡ first_no (naming vertices tri2vtx.now pix2tri.now) }
{
    ask(all_below(vertices, tri2vtx), Refusal::Vertices)?;
    ask(names_faces(tri2vtx.len() / 3, pix2tri), Refusal::Faces)
}
