// The pixels of two drawings compared by the marks of the removed faces, for the crate that draws them. No function here is a public call.
#![tactic(auto)]

ghost use Rattle.std.specs.Prelude.{◌≡◌, not, length};
ghost use Rattle.cells.specs.Layer.{Layer};
ghost use Rattle.removal_rules.specs.Removal.{kept_by, counted};
ghost use Rattle.removal_rules.specs.Matched.{Matched};
ghost use Rattle.removal_counts.specs.Answer.{preview_of, answered, answered_in_c};

use questions::Refusal;

// How many pixels go empty, name another face and keep theirs.
#[derive(Clone, Copy, Debug, PartialEq, Eq)]
pub struct Preview {
    pub emptied: usize,
    pub renamed: usize,
    pub kept: usize,
}

// The answer as C takes it: the code, and the counts, each 0 where the call refuses.
#[repr(C)]
#[derive(Clone, Copy)]
pub struct RemovalPreview {
    pub code: u32,
    pub emptied: usize,
    pub renamed: usize,
    pub kept: usize,
}

impl From<Result<Preview, Refusal>> for RemovalPreview {
    fn from(answer: Result<Preview, Refusal>) -> RemovalPreview
        ensures { (full short : Layer) → answered_in_c result full short ≡ answered answer full short }
    {
        match answer {
            Ok(preview) => RemovalPreview {
                code: 0,
                emptied: preview.emptied,
                renamed: preview.renamed,
                kept: preview.kept,
            },
            Err(refusal) => RemovalPreview {
                code: u32::from(refusal),
                emptied: 0,
                renamed: 0,
                kept: 0,
            },
        }
    }
}

// Whether an entry of the full map names a removed face. Past the marks lies empty alone, and no face.
#[tactic(auto, unfolding(removal_rules::specs::Removal::kept_by))]
fn is_removed(removed: &[u8], entry: u32) -> bool
    ensures { result ≡ not (kept_by removed.now entry) }
{
    removed.get(entry as usize).is_some_and(|mark| *mark != 0)
}

// The pixels of both maps compared, one after the other. One whose old face is kept shows it still, since what was behind that face cannot come before it: so no numbers
// are matched here.
pub fn count_pixels(removed: &[u8], full_pix2tri: &[u32], short_pix2tri: &[u32]) -> Preview
    requires same_length { length short_pix2tri.now ≡ length full_pix2tri.now }
    requires matched { Matched (kept_by removed.now) full_pix2tri.now short_pix2tri.now (length full_pix2tri.now) }
    ensures { preview_of result ≡ counted (kept_by removed.now) full_pix2tri.now short_pix2tri.now (length full_pix2tri.now) }
{
    let count = full_pix2tri.len();
    let mut emptied: usize = 0;
    let mut renamed: usize = 0;
    for p in 0..count {
        let lost = is_removed(removed, full_pix2tri[p]);
        let shows = short_pix2tri[p] != questions::EMPTY;
        emptied += usize::from(lost & !shows);
        renamed += usize::from(lost & shows);
    }
    Preview {
        emptied,
        renamed,
        kept: count - emptied - renamed,
    }
}
