// Answers questions about zones, fake strokes and runs of strokes, one line each, from standard
// input.
//
// A question is a name and its strokes or fractals, with one space before each word: `zones S ..`,
// `bis S ..` and `fake F ..`, where S is `up|down HIGH LOW SDT EDT` and F is `TIME D|G HIGH LOW`. The
// answer of `zones` has the zones, each `SDT EDT SDIR EDIR ZG ZD ZZ GG DD VALID N` with VALID 0 or 1
// and N the number of its strokes; that of `fake` the fake strokes, each
// `up|down SDT EDT HIGH LOW POWER`; items stand with ` | ` between them, and `empty` stands for none.
// That of `bis` is is_bis_up and is_bis_down, 0 or 1 each. A float is the 16 lower-case hexadecimal
// digits of its bits, with `nan` for every NaN in an answer. An empty line and one that starts with
// `#` have no answer, any other line ends in `bad line N`, as one of more than 64 strokes does, and
// one of more than 65,536 bytes is `too long`.
//
// The questions in stdin are the first 1,100 of each name of those that `oracle/vectors zones 1`
// makes, and the answers in stdout are those of the Rust itself: the driver of oracle/, which links
// the source files of czsc-core and calls them on the same lines.
#![tactic(auto)]

mod answers;
mod items;

use lines::Unanswered;

// Where the input or the output fails, the answers end there.
// Kept: a main in each *_vectors program: they share answer_lines, and here stand this one's answer, its limit and what it says where there is no answer.
fn main(rt: HostRuntime) {
    let alloc = rt.alloc();
    let _ = lines::answer_lines(
        &rt,
        lines::MOST,
        |out, line| answers::answer(out, alloc, line),
        Unanswered::say,
    );
}
