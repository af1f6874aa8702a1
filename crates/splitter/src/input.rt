// A text read to its end. A read that fails is never taken for the end: half a sheet would be another sheet.
ghost use Rattle.std.specs.Prelude.{◌≡◌, ◌≤◌, ◌<◌, ◌↔◌, length, take, IfOk, IfSome, IsTrue, OnErr};
ghost use Rattle.std.specs.IoError.{error_kind};
ghost use Rattle.std.specs.Io.{ReadsAtMost};
ghost use Rattle.std.specs.Io.KnownBytes.{Consumes, IsAtEnd, Keeps};
ghost use Rattle.splitter.specs.Input.{judged};

use crate::{arguments, output};
use std::io::ErrorKind;
use std::{fs, io};

// The limit of a text, and the byte past it by which one that is too long is refused.
pub const TEXT: usize = commands::ROOM + 1;

// How often in a row a read may be interrupted by a signal before it counts as failed.
const INTERRUPTIONS: usize = 1000;

// The number of the error of such a read.
const EINTR: i32 = 4;

fn is_interruption(error: &io::Error) -> bool
    ensures { IsTrue result ↔ (error_kind error.now ≡ ErrorKind.Interrupted) }
{
    error.kind() == ErrorKind::Interrupted
}

// What a read's answer counts for: nothing where a signal interrupted it, else itself. Only Ok(0) is the end of the input, and an error never is.
fn judge(got: io::Result<usize>) -> Option<io::Result<usize>>
    ensures { result ≡ judged got }
{
    match got {
        Err(e) if is_interruption(&e) => None,
        Err(e) => Some(Err(e)),
        Ok(n) => Some(Ok(n)),
    }
}

// One read, tried again where a signal interrupted it.
fn read_some<R: io::Read>(file: &mut R, text: &mut [u8]) -> io::Result<usize>
    ensures bound { ReadsAtMost result text.new }
    ensures bytes { IfOk result (λ n. Consumes (R.remaining file.old) (R.remaining file.new) (take n text.new)) }
    ensures end { IfOk result (λ n. n ≡ 0 → 0 < length text.old → IsAtEnd (R.remaining file.new)) }
    ensures kept { OnErr result (Keeps (R.remaining file.old) (R.remaining file.new)) }
{
    for _ in 0..INTERRUPTIONS {
        if let Some(answer) = judge(file.read(text)) {
            return answer;
        }
    }
    Err(io::Error::from_raw_os_error(EINTR))
}

// Reads until the end of the input was seen or the buffer is full: the first n bytes are then all that was left, or as many of it as there is room for.
// No range leads this loop: how far a turn goes is what the read answers.
fn read_whole<R: io::Read>(file: &mut R, text: &mut [u8]) -> io::Result<usize>
    ensures bound { IfOk result (λ n. n ≤ length text.new) }
    ensures rest { IfOk result (λ n. IfSome (R.remaining file.old) (λ xs. take n text.new ≡ take (length text.new) xs)) }
{
    let mut n = 0;
    while n < text.len() {
        let more = read_some(file, &mut text[n..])?;
        if more == 0 {
            return Ok(n);
        }
        n += more;
    }
    Ok(n)
}

// Reads an open file into a buffer; where that can't be, says so on standard error under the given name.
fn read_open<R: io::Read>(
    rt: &HostRuntime,
    file: &mut R,
    name: &[u8],
    text: &mut [u8],
) -> io::Result<usize>
    ensures bound { IfOk result (λ n. n ≤ length text.new) }
    ensures rest { IfOk result (λ n. IfSome (R.remaining file.old) (λ xs. take n text.new ≡ take (length text.new) xs)) }
{
    read_whole(file, text).inspect_err(|e| output::fail(rt, name, e))
}

// Reads standard input into a buffer; where that can't be, says so on standard error.
pub fn read_input(rt: &HostRuntime, text: &mut [u8]) -> io::Result<usize>
    ensures { IfOk result (λ n. n ≤ length text.new) }
{
    read_open(rt, &mut rt.stdin(), b"standard input", text)
}

// Opens the file of a name. `fs` takes a name as text alone.
fn open(rt: &HostRuntime, name: &[u8]) -> io::Result<fs::File> {
    match std::str::from_utf8(name) {
        Ok(path) => fs::open(rt, path),
        Err(_) => Err(io::Error::new(ErrorKind::InvalidFilename, "the name is not UTF-8")),
    }
}

// Reads the file of a name into a buffer; where that can't be, says so on standard error.
fn read_named(rt: &HostRuntime, name: &[u8], text: &mut [u8]) -> io::Result<usize>
    ensures { IfOk result (λ n. n ≤ length text.new) }
{
    let mut file = open(rt, name).inspect_err(|e| output::fail(rt, name, e))?;
    read_open(rt, &mut file, name, text)
}

// Reads the file that an argument of any length names.
fn read_long_named(rt: &HostRuntime, i: usize, text: &mut [u8]) -> io::Result<usize>
    ensures { IfOk result (λ n. n ≤ length text.new) }
{
    let mut name = [0u8; arguments::ROOM];
    read_named(rt, arguments::read(rt, i, &mut name), text)
}

// Reads the file that an argument names, or standard input for `-`, into a buffer; where that can't be, says so on standard error.
pub fn read_file(rt: &HostRuntime, i: usize, text: &mut [u8]) -> io::Result<usize>
    ensures { IfOk result (λ n. n ≤ length text.new) }
{
    if arguments::is_input(rt, i) {
        return read_input(rt, text);
    }
    let mut name = [0u8; arguments::SHORT];
    let name = arguments::read(rt, i, &mut name);
    if name.is_empty() {
        return read_long_named(rt, i, text);
    }
    read_named(rt, name, text)
}
