// A call of each command: its arguments and files are read, the answer is written.
ghost use Rattle.std.specs.Prelude.{◌≤◌};

use crate::arguments::{ROOM, SHORT};
use crate::input::TEXT;
use crate::part::start;
use crate::{arguments, input, output};
use commands::{Command, NoNumber};
use std::process::ExitCode;

fn split_text(rt: &HostRuntime, text: &[u8]) -> ExitCode {
    let mut out = [0u8; commands::ROOM];
    let n = commands::split(text, &mut out);
    output::print(rt, start(&out, n))
}

// splitter: a sheet on standard input
pub fn split_input(rt: &HostRuntime) -> ExitCode {
    let mut text = [0u8; TEXT];
    match input::read_input(rt, &mut text) {
        Ok(n) => split_text(rt, start(&text, n)),
        Err(_) => ExitCode::SUCCESS,
    }
}

// Asks about the text that an argument names; where it can't be read, says how the command is called.
fn ask_about<F: FnOnce(&[u8]) -> ExitCode>(
    rt: &HostRuntime,
    i: usize,
    command: Command,
    ask: F,
) -> ExitCode
    requires { F.IsAlwaysCallable ask }
{
    let mut text = [0u8; TEXT];
    match input::read_file(rt, i, &mut text) {
        Ok(n) => ask(start(&text, n)),
        Err(_) => output::usage(rt, command),
    }
}

// A command of n arguments of which the first names its only text.
fn ask_one<F: FnOnce(&[u8]) -> ExitCode>(
    rt: &HostRuntime,
    n: usize,
    command: Command,
    ask: F,
) -> ExitCode
    requires { F.IsAlwaysCallable ask }
{
    if !arguments::are(rt, n, command) {
        return ExitCode::SUCCESS;
    }
    ask_about(rt, 2, command, ask)
}

// splitter split SHEET
pub fn split(rt: &HostRuntime) -> ExitCode {
    ask_one(rt, 1, Command::Split, |sheet| split_text(rt, sheet))
}

fn print_outcome(
    rt: &HostRuntime,
    outcome: Result<usize, NoNumber>,
    out: &[u8],
    command: Command,
) -> ExitCode {
    match outcome {
        Ok(n) => output::print(rt, start(out, n)),
        Err(word) => arguments::no_number(rt, word.place, command),
    }
}

// The service and the address are the third and the fourth argument.
fn look(rt: &HostRuntime, table: &[u8]) -> ExitCode {
    let mut service = [0u8; ROOM];
    let service = arguments::read(rt, 3, &mut service);
    let mut address = [0u8; ROOM];
    let address = arguments::read(rt, 4, &mut address);
    let mut out = [0u8; commands::LINES_ROOM];
    let outcome = commands::lookup(table, service, address, &mut out);
    print_outcome(rt, outcome, &out, Command::Lookup)
}

// splitter lookup TABLE SERVICE ADDRESS
pub fn lookup(rt: &HostRuntime) -> ExitCode {
    ask_one(rt, 3, Command::Lookup, |table| look(rt, table))
}

// The service, the volume and the backend are the third to the fifth argument.
fn measure(rt: &HostRuntime, table: &[u8]) -> ExitCode {
    let mut service = [0u8; ROOM];
    let service = arguments::read(rt, 3, &mut service);
    let mut volume = [0u8; ROOM];
    let volume = arguments::read(rt, 4, &mut volume);
    let mut backend = [0u8; ROOM];
    let backend = arguments::read(rt, 5, &mut backend);
    let mut out = [0u8; commands::LINES_ROOM];
    let outcome = commands::gauge(table, service, volume, backend, &mut out);
    print_outcome(rt, outcome, &out, Command::Gauge)
}

// splitter gauge TABLE SERVICE VOLUME BACKEND
pub fn gauge(rt: &HostRuntime) -> ExitCode {
    ask_one(rt, 4, Command::Gauge, |table| measure(rt, table))
}

// Two texts, and the command that asks about them.
#[derive(Drop)]
struct Question<'a> {
    old: &'a [u8],
    new: &'a [u8],
    command: Command,
}

// The answer about a service, the fourth argument, of up to N bytes. The bound of N is what an array of that length asks.
// Not inlined, as `ask_stages`: a call would pay at entry for the room of the longest words, and `churn` took a fifth more time.
#[inline(never)]
fn ask_service<const N: usize>(rt: &HostRuntime, of: &Question) -> ExitCode
    requires { N ≤ 131071 }
{
    let mut service = [0u8; N];
    let service = arguments::read(rt, 4, &mut service);
    let mut out = [0u8; commands::LINES_ROOM];
    let outcome = match of.command {
        Command::Update => commands::update(of.old, of.new, service, &mut out),
        _ => commands::churn(of.old, of.new, service, &mut out),
    };
    print_outcome(rt, outcome, &out, of.command)
}

// The answer about a change from one text to another, cut into stages, and about one of them where the command is `stage`.
#[inline(never)]
fn ask_stages<const N: usize>(rt: &HostRuntime, of: &Question) -> ExitCode
    requires { N ≤ 131071 }
{
    let mut service = [0u8; N];
    let service = arguments::read(rt, 4, &mut service);
    let mut limit = [0u8; N];
    let limit = arguments::read(rt, 5, &mut limit);
    let mut capacity = [0u8; N];
    let capacity = arguments::read(rt, 6, &mut capacity);
    let mut number = [0u8; N];
    let number = arguments::read(rt, 7, &mut number);
    let mut out = [0u8; commands::ROOM];
    let outcome = match of.command {
        Command::Stage => commands::stage(
            of.old, of.new, service, limit, capacity, number, &mut out,
        ),
        _ => commands::stages(of.old, of.new, service, limit, capacity, &mut out),
    };
    print_outcome(rt, outcome, &out, of.command)
}

fn ask_words<const N: usize>(rt: &HostRuntime, of: &Question) -> ExitCode
    requires { N ≤ 131071 }
{
    match of.command {
        Command::Stages | Command::Stage => ask_stages::<N>(rt, of),
        _ => ask_service::<N>(rt, of),
    }
}

// The words are the fourth argument and those behind it, and mostly short.
fn ask_two(rt: &HostRuntime, of: &Question) -> ExitCode {
    let words = match of.command {
        Command::Stage => 4..8,
        Command::Stages => 4..7,
        _ => 4..5,
    };
    if arguments::are_short(rt, words) {
        ask_words::<SHORT>(rt, of)
    } else {
        ask_words::<ROOM>(rt, of)
    }
}

// A command of two texts and n arguments in all: standard input can only be one of the texts.
fn read_two(rt: &HostRuntime, n: usize, command: Command) -> ExitCode {
    if !arguments::are(rt, n, command) {
        return ExitCode::SUCCESS;
    }
    if arguments::is_input(rt, 2) && arguments::is_input(rt, 3) {
        output::complain(rt, b"splitter: standard input is read only once\n", command);
        return ExitCode::SUCCESS;
    }
    ask_about(rt, 2, command, |old| {
        ask_about(
            rt,
            3,
            command,
            |new| ask_two(rt, &Question { old, new, command }),
        )
    })
}

// splitter churn OLD NEW SERVICE
pub fn churn(rt: &HostRuntime) -> ExitCode {
    read_two(rt, 3, Command::Churn)
}

// splitter update OLD SHEET SERVICE
pub fn update(rt: &HostRuntime) -> ExitCode {
    read_two(rt, 3, Command::Update)
}

// splitter stages OLD NEW SERVICE LIMIT CAPACITY
pub fn stages(rt: &HostRuntime) -> ExitCode {
    read_two(rt, 5, Command::Stages)
}

// splitter stage OLD NEW SERVICE LIMIT CAPACITY NUMBER
pub fn stage(rt: &HostRuntime) -> ExitCode {
    read_two(rt, 6, Command::Stage)
}

// splitter help
pub fn help(rt: &HostRuntime) -> ExitCode {
    if !arguments::are(rt, 0, Command::Help) {
        return ExitCode::SUCCESS;
    }
    let mut out = [0u8; commands::ROOM];
    let n = commands::help(&mut out);
    output::print(rt, start(&out, n))
}
