// The program: it asks and tells the operating system and does nothing else. What it prints is defined and proved in `commands`.
#![tactic(auto)]

mod arguments;
mod calls;
mod input;
mod output;
mod part;

use commands::Command;
use std::process::ExitCode;

fn main(rt: HostRuntime) -> ExitCode {
    if arguments::count(&rt) < 2 {
        return calls::split_input(&rt);
    }
    let command = arguments::command(&rt);
    match command {
        Command::Split => calls::split(&rt),
        Command::Lookup => calls::lookup(&rt),
        Command::Churn => calls::churn(&rt),
        Command::Update => calls::update(&rt),
        Command::Stages => calls::stages(&rt),
        Command::Stage => calls::stage(&rt),
        Command::Gauge => calls::gauge(&rt),
        Command::Help => calls::help(&rt),
        Command::Unknown => output::complain(&rt, b"splitter: no such command\n", Command::Unknown),
    }
}
