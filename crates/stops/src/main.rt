// Runs the scan of one piece stopped after every number of visits (02, Point 7), on images of five columns and nine rows. A case is a line of twelve words:
// the piece's number, the depth that every pixel holds before, its three corners in normalised coordinates, and how many stops to run: after 0 visits, 1, ..
// Each stop begins with the layer as it was before, its weights 0.5, and writes a line: the number of visits; then of each pixel whose cell is another now,
// in rising order, the pixel, its map entry, its depth and its three weights. The package rust/comparison wrote stdin and stdout (examples/stops.rs, whose comment says of which pieces).
#![tactic(auto)]

use cells::{Cell, LayerMut};
use geometry::Weights;
use pixels::ImageSize;
use questions::EMPTY;
use rules::Facing;
use std::io;
use std::io::{Read, Write};
use words::{f32_of, of_f32};

const SIZE: ImageSize = ImageSize { w: 5, h: 9 };

const PIXELS: usize = 45;

const WEIGHT: f32 = 0.5;

// Writes a pixel, unless its cell is the one from before.
fn write_pixel<W: Write>(output: &mut W, p: usize, cell: Cell, before: f32) -> io::Result<()> {
    let number = cell.number;
    let depth = of_f32(cell.depth);
    let Weights { b0, b1, b2 } = cell.weights;
    let unmarked = number == EMPTY && depth == of_f32(before);
    if unmarked && b0 == WEIGHT && b1 == WEIGHT && b2 == WEIGHT {
        return Ok(());
    }
    write!(
        output,
        "{p:08x} {number:08x} {depth:08x} {:08x} {:08x} {:08x} ",
        of_f32(b0),
        of_f32(b1),
        of_f32(b2)
    )
}

// The scan of a piece on a layer of that depth, stopped after n visits. The three corners travel as an array of arrays, by value, as the specification names it.
fn stop<W: Write>(
    output: &mut W,
    number: u32,
    before: f32,
    ndc: [[f32; 3]; 3],
    n: u32,
) -> io::Result<()> {
    let mut pix2tri = [EMPTY; PIXELS];
    let mut pix2depth = [before; PIXELS];
    let mut pix2weights = [WEIGHT; 3 * PIXELS];
    let mut layer = LayerMut {
        size: SIZE,
        pix2tri: &mut pix2tri,
        pix2depth: &mut pix2depth,
        pix2weights: &mut pix2weights,
    };
    raster::rasterize_projected_tri(&mut layer, number, ndc, false, n as usize, Facing::All);
    write!(output, "{n:08x} ")?;
    for p in 0..PIXELS {
        let weights = Weights {
            b0: pix2weights[3 * p],
            b1: pix2weights[3 * p + 1],
            b2: pix2weights[3 * p + 2],
        };
        let cell = Cell {
            depth: pix2depth[p],
            number: pix2tri[p],
            weights,
        };
        write_pixel(output, p, cell, before)?;
    }
    writeln!(output)
}

// Runs the next case, and answers whether there was one.
fn run_one<R: Read, W: Write>(input: &mut R, output: &mut W) -> io::Result<bool> {
    let Some(case) = words::read(input)? else {
        return Ok(false);
    };
    let [number, depth, x0, y0, z0, x1, y1, z1, x2, y2, z2, count]: [u32; 12] = case;
    let ndc = [
        [f32_of(x0), f32_of(y0), f32_of(z0)],
        [f32_of(x1), f32_of(y1), f32_of(z1)],
        [f32_of(x2), f32_of(y2), f32_of(z2)],
    ];
    for n in 0..count {
        stop(output, number, f32_of(depth), ndc, n)?;
    }
    Ok(true)
}

// (The same lines as those of `vectors`: a reader and a writer of the runtime go to no other crate.)
fn main(rt: HostRuntime) -> io::Result<()> {
    let mut input = rt.reader();
    let mut output = io::writer(&rt);
    for _ in 0..1_000_000 {
        if !run_one(&mut input, &mut output)? {
            break;
        }
    }
    Ok(())
}
