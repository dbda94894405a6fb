// The show program: draws T(0.25) and T(0.5) with the identity matrix, 2 x 2, by the public calls, and prints for each
// pixel its row and column, the number of the face it shows, and its depth's bits.
#![tactic(auto)]

use questions::Refusal;
use std::io;

const WIDTH: usize = 2;

const HEIGHT: usize = 2;

const PIXELS: usize = 4;

const ALL_FACES: u32 = 0;

const IDENTITY: [f32; 16] = [
    1.0, 0.0, 0.0, 0.0, 0.0, 1.0, 0.0, 0.0, 0.0, 0.0, 1.0, 0.0, 0.0, 0.0, 0.0, 1.0,
];

// T(z) is the face (-1, -1, z), (3, -1, z), (-1, 3, z).
const VTX2XYZ: [f32; 18] = [
    -1.0, -1.0, 0.25, 3.0, -1.0, 0.25, -1.0, 3.0, 0.25, -1.0, -1.0, 0.5, 3.0, -1.0, 0.5, -1.0, 3.0,
    0.5,
];

const TRI2VTX: [u32; 6] = [0, 1, 2, 3, 4, 5];

// The picture on a layer of its own: its map and its depths.
fn draw(pix2tri: &mut [u32; PIXELS], pix2depth: &mut [f32; PIXELS]) -> Result<(), Refusal> {
    let mut pix2weights = [0.0; 3 * PIXELS];
    layers::clear(pix2tri, pix2depth, &mut pix2weights, WIDTH, HEIGHT)?;
    drawing::pix2tri_by_rasterization(
        pix2tri,
        pix2depth,
        &mut pix2weights,
        &TRI2VTX,
        &VTX2XYZ,
        WIDTH,
        HEIGHT,
        &IDENTITY,
        0,
        ALL_FACES,
    )
}

fn print_pixels(
    rt: &impl Print,
    pix2tri: &[u32; PIXELS],
    pix2depth: &[f32; PIXELS],
) -> io::Result<()> {
    for p in 0..PIXELS {
        let row = p / WIDTH;
        let column = p % WIDTH;
        let number = pix2tri[p];
        let bits = words::of_f32(pix2depth[p]);
        println!(rt; "(pixel ({row} {column}) ({number} {bits:08x}))")?;
    }
    Ok(())
}

fn main(rt: HostRuntime) -> io::Result<()> {
    let mut pix2tri = [0; PIXELS];
    let mut pix2depth = [0.0; PIXELS];
    match draw(&mut pix2tri, &mut pix2depth) {
        Ok(()) => print_pixels(&rt, &pix2tri, &pix2depth),
        Err(refusal) => println!(rt; "{refusal}"),
    }
}
