// Answers questions about the floats of `arith`, one line each, from standard input.
//
// A question is a name and its values with one space before each: `round X`, `places D X` (D from 0
// to 6), `round2 X`, `round3 X`, `round4 X`, `max X Y`, `min X Y`, `abs X`, `sum X ..`, `mean X ..`,
// `slope X ..`, `acceleration X ..`, `snr OPEN CLOSE ..`. A value is the 16 lower-case hexadecimal
// digits of its bits, and so is an answer, with `nan` for every NaN. An empty line and one that
// starts with `#` have no answer, any other line `bad line N`, and one of more than 65,536 bytes
// `too long`.
//
// The questions in stdin were made by `oracle/vectors arith 1`, and the answers in stdout are those
// of the Rust itself: the driver of oracle/, which links the source files of czsc-core and calls
// them on the same lines.
#![tactic(auto)]

mod questions;

use lines::Unanswered;

// Where the input or the output fails, the answers end there.
// Kept: a main in each *_vectors program: they share answer_lines, and here stand this one's answer, its limit and what it says where there is no answer.
fn main(rt: HostRuntime) {
    let alloc = rt.alloc();
    let _ = lines::answer_lines(
        &rt,
        lines::MOST,
        |out, line| questions::answer(out, alloc, line),
        Unanswered::say,
    );
}
