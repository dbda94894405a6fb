// Runs the float tools over IEEE vectors, and writes each with its answer. A vector is a line of three
// words: the tool, and a pattern of 64 bits in two.
//   1  the root of an f32, the second word      2  the root of an f64
//   3  an f64 narrowed                          4  the hypot of the f32s of both words
// The answer follows in two words. The file stdout has the processor's own answers: the package rust/
// wrote it and stdin (examples/vectors.rs, whose comment says of which values).
#![tactic(auto)]

use std::io;
use std::io::{Read, Write};

// Every word, and what the first of two counts.
const WORDS: u64 = 0x1_0000_0000;

#[derive(Clone, Copy)]
enum Tool {
    SqrtF32,
    SqrtF64,
    Narrow,
    Hypot,
}

impl From<u32> for Tool {
    fn from(number: u32) -> Tool {
        match number {
            1 => Tool::SqrtF32,
            2 => Tool::SqrtF64,
            3 => Tool::Narrow,
            _ => Tool::Hypot,
        }
    }
}

fn answer(tool: Tool, high: u32, low: u32) -> u64 {
    let pattern = high as u64 * WORDS + low as u64;
    match tool {
        Tool::SqrtF32 => words::of_f32(roots::sqrt_f32(words::f32_of(low))) as u64,
        Tool::SqrtF64 => words::of_f64(roots::sqrt_f64(words::f64_of(pattern))),
        Tool::Narrow => words::of_f32(floats::narrow_f64_to_f32(words::f64_of(pattern))) as u64,
        Tool::Hypot => words::of_f32(floats::hypot_f32(
            words::f32_of(high),
            words::f32_of(low),
        )) as u64,
    }
}

// Runs the next vector, and answers whether there was one.
fn run_one<R: Read, W: Write>(input: &mut R, output: &mut W) -> io::Result<bool> {
    let Some(vector) = words::read(input)? else {
        return Ok(false);
    };
    let [tool, high, low]: [u32; 3] = vector;
    let bits = answer(Tool::from(tool), high, low);
    writeln!(
        output,
        "{tool:08x} {high:08x} {low:08x} {:08x} {:08x}",
        bits / WORDS,
        bits % WORDS
    )?;
    Ok(true)
}

// (The same lines as those of `stops`: a reader and a writer of the runtime go to no other crate.)
fn main(rt: HostRuntime) -> io::Result<()> {
    let mut input = rt.reader();
    let mut output = io::writer(&rt);
    for _ in 0..1_000_000 {
        if !run_one(&mut input, &mut output)? {
            break;
        }
    }
    Ok(())
}
