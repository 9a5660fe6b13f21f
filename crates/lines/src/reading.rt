// Lines from standard input, one at a time.
ghost use Rattle.std.specs.List.{list_any};
ghost use Rattle.std.specs.Io.Buffered.{reader_buffer, reader_capacity};
ghost use Rattle.std.specs.Prelude.{◌≡◌, ◌==◌, ◌≤◌, [], IfOk, Ok, false, true, vec_len};

use std::alloc::Global;
use std::io::{self, BufRead, BufReader, Read, Stdin};

// Standard input, and whether it has ended. What has ended is not read again: at a terminal a read would wait for whoever types there.
#[derive(Drop)]
pub struct Input {
    pub bytes: BufReader<Stdin>,
    pub ended: bool,
}

// Standard input, read 65,536 bytes at a time.
pub fn buffered_input(alloc: Global, from: Stdin) -> io::Result<Input>
    ensures empty { IfOk result (λ input. reader_buffer input.bytes ≡ []) }
    ensures capacity { IfOk result (λ input. reader_capacity input.bytes ≡ 65536) }
    ensures open { IfOk result (λ input. input.ended ≡ false) }
{
    let bytes = BufReader::with_capacity(alloc, 65536, from)?;
    Ok(Input {
        bytes,
        ended: false,
    })
}

// How much of a line that is too long is read at once.
const PIECE: u64 = 65536;

// Passes over what is left of a line that is too long, and answers whether a line feed ended it, and not the input: then a piece is short and has none.
// Kept: no `skip_until`, which does not tell the one from the other.
fn pass_over(bytes: &mut BufReader<Stdin>, line: &mut Vec<u8>) -> io::Result<bool>
    ensures kept { IfOk result (λ _. vec_len line.old ≤ vec_len line.new) }
{
    let kept = line.len();
    // A proved loop has to end, and nothing says that a line does. So it counts the pieces, up to a number that no line reaches.
    for _ in 0..u64::MAX {
        line.truncate(kept);
        let read = bytes.by_ref().take(PIECE).read_until(b'\n', line)?;
        if 0 < read && line.last() == Some(&b'\n') {
            return Ok(true);
        }
        if (read as u64) < PIECE {
            break;
        }
    }
    Ok(false)
}

// Puts the next line in `line`, without its line feed, and answers whether there was one. Of a line of more than `most` bytes more than these are kept: it is
// known by its length.
pub fn read_line(from: &mut Input, line: &mut Vec<u8>, most: usize) -> io::Result<bool>
    ensures none { IfOk result (λ found. found ≡ false → line.new.items ≡ []) }
    ensures ended { from.old.ended ≡ true → result ≡ Ok false }
    ensures last { IfOk result (λ found. found ≡ false → from.new.ended ≡ true) }
{
    line.clear();
    if from.ended {
        return Ok(false);
    }
    let limit = (most as u64).saturating_add(1);
    if from.bytes.by_ref().take(limit).read_until(b'\n', line)? == 0 {
        from.ended = true;
        return Ok(false);
    }
    if line.last() == Some(&b'\n') {
        line.pop();
    } else {
        from.ended = line.len() <= most || !pass_over(&mut from.bytes, line)?;
    }
    Ok(true)
}

// Whether the next line comes with no wait: it is read already, to its line feed.
pub fn has_line(from: &Input) -> bool
    ensures { result ≡ list_any (λ b. b == 10) (reader_buffer from.now.bytes) }
{
    from.bytes.buffer().contains(&b'\n')
}
