// What a program writes to standard output, put together in a buffer and written in few calls.
ghost use Rattle.std.specs.List.{list_any};
ghost use Rattle.std.specs.Io.Buffered.{reader_buffer, writer_buffer, writer_capacity};
ghost use Rattle.std.specs.Prelude.{◌≡◌, ◌==◌, [], IfOk, OnOk, false};

use crate::reading::{Input, has_line};
use std::alloc::Global;
use std::io::{self, BufWriter, Stdout, Write};

pub type Output = BufWriter<Stdout>;

// Standard output, written 65,536 bytes at a time.
pub fn buffered_output(alloc: Global, to: Stdout) -> io::Result<Output>
    ensures empty { IfOk result (λ output. writer_buffer output ≡ []) }
    ensures capacity { IfOk result (λ output. writer_capacity output ≡ 65536) }
{
    BufWriter::with_capacity(alloc, 65536, to)
}

// Writes what waits where the next line may have to be waited for, since whoever sends it may wait for these answers.
pub fn flush_before_reading(out: &mut Output, from: &Input) -> io::Result<()>
    ensures flushed { OnOk result (list_any (λ b. b == 10) (reader_buffer from.now.bytes) ≡ false → writer_buffer out.new ≡ []) }
{
    if has_line(from) {
        return Ok(());
    }
    out.flush()
}
