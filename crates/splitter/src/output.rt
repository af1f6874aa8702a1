// What a call prints, and what it complains of.
use crate::part::start;
use commands::Command;
use std::io;
use std::io::{Cursor, ErrorKind, Write};
use std::process::ExitCode;

// The status that a shell shows of a program that a pipe without a reader ended.
const NO_READER: u8 = 141;

// Prints an answer, and says with which status the program ends: 0, so an answer that can't be written is told on standard error. Where nobody reads
// any more, it is not told: today's programs see that as a failed write, where a signal once ended them.
pub fn print(rt: &HostRuntime, answer: &[u8]) -> ExitCode {
    if let Err(e) = rt.write_all(answer) {
        if e.kind() == ErrorKind::BrokenPipe {
            return ExitCode::from(NO_READER);
        }
        tell(rt, b"splitter: the answer can't be written\n");
    }
    ExitCode::SUCCESS
}

// Bytes on standard error. Where that can't be written to either, nothing is left to be told.
pub fn tell(rt: &HostRuntime, message: &[u8]) {
    let _ = rt.stderr().write_all(message);
}

// The command's usage on standard error. The program then ends with status 0.
pub fn usage(rt: &HostRuntime, command: Command) -> ExitCode {
    let mut out = [0u8; commands::ROOM];
    let n = commands::usage(command, &mut out);
    tell(rt, start(&out, n));
    ExitCode::SUCCESS
}

// A message on standard error, with the command's usage.
pub fn complain(rt: &HostRuntime, message: &[u8], command: Command) -> ExitCode {
    tell(rt, message);
    usage(rt, command)
}

// What stands before the number of a system's error, and before the zeros behind a text.
fn words(text: &[u8]) -> &[u8] {
    let end = (0..text.len()).find(|i| {
        let rest = &text[*i..];
        rest.starts_with(b" (os error ") || rest.starts_with(&[0])
    });
    start(text, end.unwrap_or(text.len()))
}

// Says on standard error what failed, and why: an error as `io::Error` prints it, without the number behind the system's text.
pub fn fail(rt: &HostRuntime, what: &[u8], error: &io::Error) {
    let mut why = Cursor::new([0u8; 128]);
    let _ = write!(why, "{error}");
    let text = why.into_inner();
    tell(rt, what);
    tell(rt, b": ");
    tell(rt, words(&text));
    tell(rt, b"\n");
}
