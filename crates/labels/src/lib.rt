// The picture of body numbers (02, Point 10): the public call `label_picture`. It is lent the map and a table, and neither depths nor weights.
#![tactic(auto)]

ghost use Rattle.std.specs.Prelude.{◌≡◌, ◌+◌, ◌≤◌, length};
ghost use Rattle.lists.specs.Lists.{filled};
ghost use Rattle.questions.specs.Answer.{code_of};
ghost use Rattle.questions.specs.Questions.{outcome, most_count};
ghost use Rattle.labels.specs.Labels.{label, labelled, label_code, labelling};
ghost use Rattle.labels.specs.Strips.{strip, shown_at, all_show};

use pixels::ImageSize;
use questions::{EMPTY, Refusal, ask, count_ok, names_faces, sizes_ok};

// Pixels in a strip of the map. Many strips show one face, or none.
const STRIP: usize = 32;

// What the screen shows of an entry. Past the table's end there is no body, and there lies empty.
#[tactic(auto, using(crate::proofs::Laws::label_read, crate::proofs::Laws::label_past))]
fn label_of(tri2body: &[u32], entry: u32) -> u32
    requires { length tri2body.now ≤ most_count }
    ensures { result ≡ label tri2body.now entry }
{
    *tri2body.get(entry as usize).unwrap_or(&EMPTY)
}

// Questions 1, 3, 4 and 7.
#[tactic(auto, using(questions::specs::Laws::sized), unfolding(crate::specs::Labels::label_code, questions::specs::Questions::first_no, questions::specs::Questions::exact))]
fn ask_label(
    pix2tri: &[u32],
    tri2body: &[u32],
    img_w: usize,
    img_h: usize,
    pix2body: &[u32],
) -> Result<(), Refusal>
    ensures { code_of result ≡ label_code pix2tri.now tri2body.now img_w img_h pix2body.now }
{
    ask(sizes_ok(1, img_w, img_h), Refusal::Size)?;
    ask(count_ok(tri2body.len()), Refusal::Slices)?;
    let size = ImageSize { w: img_w, h: img_h };
    let pixels = size.pixels();
    ask(
        pix2tri.len() == pixels && pix2body.len() == pixels,
        Refusal::Lengths,
    )?;
    ask(names_faces(tri2body.len(), pix2tri), Refusal::Faces)
}

// What the screen shows of `count` pixels from p on.
#[tactic(auto, using(lists::specs::Laws::Filled::filled_none, lists::specs::Laws::Filled::filled_next, lists::specs::Laws::Filled::filled_ended))]
fn label_each(pix2tri: &[u32], tri2body: &[u32], p: usize, count: usize, pix2body: &mut [u32])
    requires few { length tri2body.now ≤ most_count }
    requires within { p + count ≤ length pix2tri.now }
    requires lent { length pix2body.old ≡ length pix2tri.now }
    ensures { pix2body.new ≡ filled (shown_at tri2body.now pix2tri.now) p count pix2body.old }
{
    for i in 0..count {
        pix2body[p + i] = label_of(tri2body, pix2tri[p + i]);
    }
}

// One body at each pixel of the strip from p on.
#[tactic(auto, using(lists::specs::Laws::Filled::filled_none, lists::specs::Laws::Filled::filled_next, lists::specs::Laws::Filled::filled_ended))]
fn fill_strip(body: u32, p: usize, pix2body: &mut [u32])
    requires { p + strip ≤ length pix2body.old }
    ensures { pix2body.new ≡ filled (λ q. body) p strip pix2body.old }
{
    for i in 0..STRIP {
        pix2body[p + i] = body;
    }
}

// Have all pixels of the strip from p on that entry? (No early end, so that several are compared at once.)
#[tactic(auto, using(lists::specs::Laws::Every::gathered_none, lists::specs::Laws::Every::gathered_ended))]
fn all_show(pix2tri: &[u32], p: usize, entry: u32) -> bool
    requires { p + strip ≤ length pix2tri.now }
    ensures { result ≡ all_show pix2tri.now p strip entry }
{
    let mut all = true;
    for i in 0..STRIP {
        all = all & (pix2tri[p + i] == entry);
    }
    all
}

// What the screen shows of the strip from p on. Where all its pixels have one entry, the body is looked up once; of most strips that have more, the ends tell.
fn label_strip(pix2tri: &[u32], tri2body: &[u32], p: usize, pix2body: &mut [u32])
    requires few { length tri2body.now ≤ most_count }
    requires within { p + strip ≤ length pix2tri.now }
    requires lent { length pix2body.old ≡ length pix2tri.now }
    ensures { pix2body.new ≡ filled (shown_at tri2body.now pix2tri.now) p strip pix2body.old }
{
    let entry = pix2tri[p];
    if pix2tri[p + STRIP - 1] == entry && all_show(pix2tri, p, entry) {
        fill_strip(label_of(tri2body, entry), p, pix2body);
    } else {
        label_each(pix2tri, tri2body, p, STRIP, pix2body);
    }
}

// What the screen shows of every pixel.
#[tactic(auto, using(lists::specs::Laws::Filled::filled_none))]
fn label_pixels(pix2tri: &[u32], tri2body: &[u32], pix2body: &mut [u32])
    requires few { length tri2body.now ≤ most_count }
    requires lent { length pix2body.old ≡ length pix2tri.now }
    ensures { pix2body.new ≡ labelled tri2body.now pix2tri.now }
{
    let strips = pix2tri.len() / STRIP;
    for s in 0..strips {
        label_strip(pix2tri, tri2body, s * STRIP, pix2body);
    }
    label_each(
        pix2tri,
        tri2body,
        strips * STRIP,
        pix2tri.len() % STRIP,
        pix2body,
    );
}

// Each pixel's body number, from a table with one for each face; 4294967295 for an empty pixel.
#[tactic(auto, unfolding(crate::specs::Labels::labelling))]
pub fn label_picture(
    pix2tri: &[u32],
    tri2body: &[u32],
    img_w: usize,
    img_h: usize,
    pix2body: &mut [u32],
) -> Result<(), Refusal>
    ensures { outcome (code_of result) pix2body.new ≡ labelling pix2tri.now tri2body.now img_w img_h pix2body.old }
{
    ask_label(pix2tri, tri2body, img_w, img_h, pix2body)?;
    label_pixels(pix2tri, tri2body, pix2body);
    Ok(())
}
