//! A program whose cloud is a folder: each resource is a file, named by its token. It hands the top call a
//! `FileCloud`, reads and writes as heat_converge does, and says on standard error what is wrong with the folder.
#![tactic(auto)]

mod card;
mod facts;
mod file_cloud;
mod file_name;
mod folder;
mod load_fault;
mod loading;
mod rewrite;
#[cfg(test)]
mod tests;

use converge_call::{Exit, Outcome, Unkept, converge_shipped};
use file_cloud::FileCloud;
use folder::Folder;
use heat_io::{Sink, Source, StdSink, StdSource};
use heat_value::Text;
use load_fault::LoadFault;
use loading::load;
use std::alloc::{AllocError, Global};
use std::io::ErrorKind;
use std::process::ExitCode;
use std::{env, io};

// The one word behind the program's name; none where there is another number of them, or it isn't UTF-8.
fn path_of(rt: &HostRuntime) -> Result<Option<Text>, AllocError> {
    let mut words = match env::args(rt) {
        Ok(words) => words.skip(1),
        Err(error) if error.kind() == ErrorKind::OutOfMemory => return Err(AllocError),
        Err(_) => return Ok(None),
    };
    match (words.next(), words.next()) {
        (Some(path), None) => Ok(Some(Text::from_string(path))),
        _ => Ok(None),
    }
}

// Drives a cloud by a script.
fn drive<S: Source, K: Sink>(
    alloc: Global,
    source: &mut S,
    sink: &mut K,
    cloud: FileCloud,
) -> Result<Exit, AllocError> {
    let mut words = Vec::new(alloc);
    words.push(Text::from_str(alloc, "drive")?)?;
    let Outcome { status, end } = converge_shipped(alloc, &words, source, sink, Unkept, cloud);
    let (_keeper, _cloud) = end.give_back();
    Ok(status)
}

// Drives the cloud of the folder that the program's word names by standard input.
fn run(rt: &HostRuntime) -> Result<Exit, LoadFault> {
    let Some(path) = path_of(rt)? else {
        return Ok(Exit::Usage);
    };
    let cloud = load(Folder { rt: *rt, path })?;
    let mut source = StdSource::new(rt.reader());
    let mut sink = StdSink::new(io::writer(rt));
    Ok(drive(rt.alloc(), &mut source, &mut sink, cloud)?)
}

// Says how the program ended, where its folder or its words are at fault.
fn say(rt: &HostRuntime, exit: &Exit) {
    match exit {
        Exit::Usage => {
            let _ = eprintln!(rt; "use: file_provider FOLDER");
        }
        Exit::Disagree(token, _) => {
            let (stack, name, row) = (token.stack.as_str(), token.name.as_str(), token.row.get());
            let _ = eprintln!(rt; "file_provider: {stack}+{name}+{row}: rows and files disagree");
        }
        _ => {}
    }
}

fn main(rt: HostRuntime) -> ExitCode {
    match run(&rt) {
        Ok(exit) => {
            say(&rt, &exit);
            ExitCode::from(exit.code())
        }
        Err(LoadFault::At(name, wrong)) => {
            let _ = eprintln!(rt; "file_provider: {}: {}", name.as_str(), wrong.words());
            ExitCode::from(12)
        }
        Err(LoadFault::Memory) => ExitCode::from(7),
    }
}
