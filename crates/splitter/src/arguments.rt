// The arguments of a call. They are read as bytes: a word need not be UTF-8, unless it names a file.
ghost use Rattle.std.specs.Prelude.{◌≤◌, length};

use crate::output;
use crate::part::start;
use commands::Command;
use std::env::FillError;
use std::ops::Range;
use std::process::ExitCode;
use std::rt::Env;

// The longest argument that Linux hands to a program, without its closing 0.
pub const ROOM: usize = 131071;

// The space that an argument is read into first: clearing the longest one is up to a quarter of a call's work. One that is too long
// is then read again.
pub const SHORT: usize = 256;

// An argument, at the start of a buffer; an empty word where it is missing or longer than the buffer.
pub fn read<'a>(rt: &impl Env, i: usize, buffer: &'a mut [u8]) -> &'a [u8]
    ensures { length result.now ≤ length buffer.old }
{
    let n = rt.arg(i, buffer).unwrap_or(0);
    start(buffer, n)
}

// Whether each of the arguments is there, not empty and short.
pub fn are_short(rt: &impl Env, mut places: Range<usize>) -> bool {
    places.all(|i| !read(rt, i, &mut [0u8; SHORT]).is_empty())
}

fn is_there(rt: &impl Env, i: usize) -> bool {
    !matches!(rt.arg(i, &mut [0u8; 1]), Err(FillError::NotPresent))
}

// How many words a call has, the program's name among them.
pub fn count(rt: &impl Env) -> usize {
    (0..usize::MAX)
        .find(|i| !is_there(rt, *i))
        .unwrap_or(usize::MAX)
}

// The command that the first argument names. What is too long for the buffer is taken for an empty word, which names none.
pub fn command(rt: &impl Env) -> Command {
    commands::command(read(rt, 1, &mut [0u8; 64]))
}

// Whether there are n arguments behind the command; where not, says so with the command's usage.
pub fn are(rt: &HostRuntime, n: usize, command: Command) -> bool {
    let found = count(rt);
    if found >= 2 && found - 2 == n {
        return true;
    }
    if found >= 2 && found - 2 > n {
        output::complain(rt, b"splitter: an argument too many\n", command);
    } else {
        output::complain(rt, b"splitter: an argument is missing\n", command);
    }
    false
}

// Whether an argument is `-`, which names standard input.
pub fn is_input(rt: &impl Env, i: usize) -> bool {
    read(rt, i, &mut [0u8; 2]) == b"-".as_slice()
}

// Says that an argument, counted from 1 behind the command, is no number.
pub fn no_number(rt: &HostRuntime, place: usize, command: Command) -> ExitCode {
    output::tell(rt, read(rt, place.wrapping_add(1), &mut [0u8; ROOM]));
    output::complain(rt, b": not a number\n", command)
}
