//! The forms that the program's words may have, each as a command of `clap`. A further form is one more
//! function here, and a line in `usage`. In a text `{n}` ends a line.
use clap::{Arg, Command};
use std::alloc::{AllocError, Global};

/// `drive`: stacks are driven by a script.
pub(crate) fn drive(alloc: Global) -> Result<Command<'static>, AllocError> {
    Command::new(alloc, "heat_converge drive")
        .disable_help_flag(true)
        .about(
            "Reads a script of stack commands on standard input. The report goes to standard output, after each{n}\
             line what it adds; it alone says which lines were refused and which stacks failed.",
        )
        .after_help(
            "An option comes at most once, its value behind it or behind `=`; the word `--` ends the options.{n}{n}\
             Example: heat_converge drive --workers 2 --cloud cloud.json < stacks.script > report",
        )
        .arg(workers(alloc))?
        .arg(cloud(alloc))
}

// How many engines there are.
fn workers(alloc: Global) -> Arg<'static> {
    Arg::new(alloc, "workers")
        .long("workers")
        .value_name("n")
        .default_value("1")
        .help("Engines that are live at first, 1 to 64")
}

// Which cloud is driven.
fn cloud(alloc: Global) -> Arg<'static> {
    Arg::new(alloc, "cloud")
        .long("cloud")
        .value_name("file")
        .help(
            "The simulated cloud, a JSON file, read first and written back at the end;{n}\
             without it, or where there is no such file, the cloud is empty",
        )
}
