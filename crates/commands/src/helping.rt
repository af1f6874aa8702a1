// The commands by their words, the text of help, and usages.
ghost use Rattle.std.specs.Prelude.{◌≡◌, length};
ghost use Rattle.std.proofs.lemmas.List.Edits.{sets};
ghost use Rattle.commands.specs.Help.{command_of, help_text, usage_text};

use crate::answer::Command;
use crate::writing::put_bytes;

// The command that a word names.
pub fn command(word: &[u8]) -> Command
    ensures { result ≡ command_of word.now }
{
    if word == b"split".as_slice() {
        return Command::Split;
    }
    if word == b"lookup".as_slice() {
        return Command::Lookup;
    }
    if word == b"churn".as_slice() {
        return Command::Churn;
    }
    if word == b"update".as_slice() {
        return Command::Update;
    }
    if word == b"stages".as_slice() {
        return Command::Stages;
    }
    if word == b"stage".as_slice() {
        return Command::Stage;
    }
    if word == b"gauge".as_slice() {
        return Command::Gauge;
    }
    if word == b"help".as_slice() {
        return Command::Help;
    }
    Command::Unknown
}

// The commands, each with a line and an example.
pub fn help(out: &mut [u8; crate::ROOM]) -> usize
    ensures answer { result ≡ length help_text }
    ensures buffer { out.new ≡ sets out.old 0 help_text }
{
    put_bytes(
        out,
        0,
        b"splitter                                              a percentage sheet on standard input: its rule sheet\n    splitter < figure-9.sheet\n\
splitter split SHEET                                  the same for a file\n    splitter split figure-9.sheet\n\
splitter lookup TABLE SERVICE ADDRESS                 the backend of an address\n    splitter lookup old.table 1 10.0.0.1\n\
splitter churn OLD NEW SERVICE                        how many suffixes moved\n    splitter churn old.table new.table 1\n\
splitter update OLD SHEET SERVICE                     new weights on a loaded table\n    splitter update old.table new.sheet 1\n\
splitter stages OLD NEW SERVICE LIMIT CAPACITY        the places at which a change is cut into stages\n    splitter stages old.table new.table 1 4 8\n\
splitter stage OLD NEW SERVICE LIMIT CAPACITY NUMBER  one stage as lines for the switch\n    splitter stage old.table new.table 1 4 8 1\n\
splitter gauge TABLE SERVICE VOLUME BACKEND           the share and the load of a backend\n    splitter gauge old.table 1 55 2\n\
splitter help                                         this text\n    splitter help | less\n\
A file named - is standard input (once in a call).\n\
What isn't proper prints REFUSED number line (churn, update, stages, stage: number line sheet).\n",
    )
}

// The usage line of a command, or of all, for standard error.
pub fn usage(command: Command, out: &mut [u8; crate::ROOM]) -> usize
    ensures answer { result ≡ length (usage_text command) }
    ensures buffer { out.new ≡ sets out.old 0 (usage_text command) }
{
    match command {
        Command::Split => put_bytes(out, 0, b"usage: splitter split SHEET\n"),
        Command::Lookup => put_bytes(out, 0, b"usage: splitter lookup TABLE SERVICE ADDRESS\n"),
        Command::Churn => put_bytes(out, 0, b"usage: splitter churn OLD NEW SERVICE\n"),
        Command::Update => put_bytes(out, 0, b"usage: splitter update OLD SHEET SERVICE\n"),
        Command::Stages => put_bytes(
            out,
            0,
            b"usage: splitter stages OLD NEW SERVICE LIMIT CAPACITY\n",
        ),
        Command::Stage => put_bytes(
            out,
            0,
            b"usage: splitter stage OLD NEW SERVICE LIMIT CAPACITY NUMBER\n",
        ),
        Command::Gauge => put_bytes(
            out,
            0,
            b"usage: splitter gauge TABLE SERVICE VOLUME BACKEND\n",
        ),
        Command::Help => put_bytes(out, 0, b"usage: splitter help\n"),
        Command::Unknown => put_bytes(
            out,
            0,
            b"usage: splitter\n       splitter split SHEET\n       splitter lookup TABLE SERVICE ADDRESS\n       \
splitter churn OLD NEW SERVICE\n       splitter update OLD SHEET SERVICE\n       \
splitter stages OLD NEW SERVICE LIMIT CAPACITY\n       splitter stage OLD NEW SERVICE LIMIT CAPACITY NUMBER\n       \
splitter gauge TABLE SERVICE VOLUME BACKEND\n       splitter help\n",
        ),
    }
}
