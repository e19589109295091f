// The line program: standard input to standard output, on an area that starts as zeros. What it writes is proved in `stream`;
// to be believed is that `main` calls `answer_lines`, once.
#![tactic(auto)]

ghost use Rattle.std.specs.Prelude.{◌≡◌, ◌≤◌, length, replicate};
ghost use Rattle.area.specs.Layout.{area_bytes};
ghost use Rattle.answers.specs.Texts.{most_text};
ghost use Rattle.gateway.specs.Answered.{LinesAnswered};

use area::AREA_BYTES;
use std::io::{Read, Write};
use stream::{Ended, answer_input};

// All of the input, up to a failure.
fn answer_lines<R: Read, W: Write>(
    input: &mut R,
    output: &mut W,
    area: &mut [u8],
    piece: &mut [u8],
    out: &mut [u8],
) -> Ended
    requires { (area.old ≡ replicate area_bytes 0) × (1 ≤ length piece.old) × (most_text ≤ length out.old) }
    ensures { LinesAnswered result.turns result.flow area.new piece.new }
{
    answer_input(input, output, area, piece, out)
}

fn main(rt: HostRuntime) {
    let mut area = [0u8; AREA_BYTES];
    let mut piece = io::large_buffer();
    let mut out = io::large_buffer();
    answer_lines(
        &mut rt.stdin(),
        &mut rt.stdout(),
        &mut area,
        &mut piece,
        &mut out,
    );
}
