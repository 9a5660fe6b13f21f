// Answers questions about records of CSV text, one line each, from standard input.
//
// A line is `csv PLACE HEXBYTES`: the record's place, and the text's bytes as lower-case hexadecimal digits, two a byte; an empty text
// is the word `empty`. It is answered `ok LENGTH TIME ID OPEN CLOSE HIGH LOW VOL AMOUNT`, floats as the 16 lower-case hexadecimal digits
// of their bits, or `no K` with the number of the first question that fails. An empty line and one that starts with `#` have no
// answer, any other line `bad line N`, and one of more than 2,200,000 bytes `too long`.
//
// The questions in stdin were made by `oracle/vectors csv 1`, and the answers in stdout are those of Python's csv, decimal and float
// (oracle/csv_answers.py).
#![tactic(auto)]

mod questions;

use lines::Unanswered;

// The most bytes of a line that is taken.
const MOST: usize = 2200000;

// Where the input or the output fails, the answers end there.
// Kept: a main in each *_vectors program: they share answer_lines, and here stand this one's answer, its limit and what it says where there is no answer.
fn main(rt: HostRuntime) {
    let alloc = rt.alloc();
    let _ = lines::answer_lines(
        &rt,
        MOST,
        |out, line| questions::answer(out, alloc, line),
        Unanswered::say,
    );
}
