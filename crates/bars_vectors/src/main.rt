// Answers questions about merging and gaps, one line each, from standard input.
//
// A bar is `TIME ID OPEN CLOSE HIGH LOW VOL AMOUNT`, floats as the 16 lower-case hexadecimal digits of their bits. The lines are
// `remove_include BAR BAR BAR`, answered `0|1 BAR : T1 T2 ..` (1 where the third was merged into the second, then the elements), and
// `gaps BAR BAR ..`, answered by the pairs joined by ` | `, or `empty`. `deep` and `price` stand alone: the elements of a bar 102 deep,
// and whether a price of 2^30 and the next float pass. An empty line and one that starts with `#` have no answer.
//
// The questions were made by the oracle's driver, and the answers are those of the Rust.
#![tactic(auto)]

mod answers;

// Where the input or the output fails, the answers end there.
// Kept: a main in each *_vectors program: they share answer_lines, and here stand this one's answer, its limit and what it says where there is no answer.
fn main(rt: HostRuntime) {
    let alloc = rt.alloc();
    let _ = lines::answer_lines(
        &rt,
        lines::MOST,
        |out, line| answers::answer(out, alloc, line),
        answers::say,
    );
}
