//! The program: drives stacks of resources to their templates, by a script on standard input, with the
//! report on standard output. It hands the top call with the shipped registry a simulated cloud and the
//! adapters over std, keeps no record, says on standard error how it ended, and does nothing else itself.
//! The cloud is that of a file, which it writes back after the call, or an empty one.
#![tactic(auto)]

ghost use Rattle.std.specs.Prelude.{◌≡◌, ◌⊎◌, IfOk};
ghost use Rattle.heat_converge.specs.Called.{EndsBy, EndsOver, EndsSo, HasCalled, IsEmptyCloud, IsFileSaid};

mod ended;
mod file_fault;
mod kept_cloud;
#[cfg(test)]
mod kept_cloud_tests;
mod said;

use converge_call::laws::nothing_kept_is_sound;
use converge_call::{Exit, Outcome, Unkept, WordsFault, converge_shipped, words_of};
use ended::Ended;
use file_fault::{FileFault, line_for};
use heat_io::{StdSink, StdSource};
use heat_value::Text;
use kept_cloud::{load, store};
use said::{word_for, words_for};
use sim_cloud::{Settings, SimCloud};
use std::alloc::{AllocError, Global};
use std::process::ExitCode;
use std::{env, io};
use usage_text::usage;

// An empty cloud.
fn empty_cloud(alloc: Global) -> Result<SimCloud, AllocError>
    ensures { IfOk result IsEmptyCloud }
{
    SimCloud::new(Settings::empty(alloc))
}

// The words behind the program's name.
fn words_of_args(alloc: Global, args: env::Args) -> Result<Vec<Text>, AllocError> {
    let mut words = Vec::new(alloc);
    for word in args.skip(1) {
        words.push(Text::from_string(word))?;
    }
    Ok(words)
}

// How the program ends where its words can't be had: one that isn't UTF-8 is of no form.
fn without_words(error: &io::Error) -> Exit
    ensures { (result ≡ Exit.Usage) ⊎ (result ≡ Exit.Memory) }
{
    if error.kind() == io::ErrorKind::InvalidData {
        Exit::Usage
    } else {
        Exit::Memory
    }
}

// The path of the cloud file that the words name, where they are a form.
fn cloud_path(alloc: Global, words: &[Text]) -> Result<Option<Text>, AllocError>
    ensures { IfOk result (λ path. IsFileSaid words.now path) }
{
    match words_of(alloc, words) {
        Ok(mode) => Ok(mode.setup().cloud),
        Err(WordsFault::Usage) => Ok(None),
        Err(WordsFault::Memory) => Err(AllocError),
    }
}

// Does what the words ask for, over this cloud and by standard input; the cloud as it is then.
fn call(rt: &HostRuntime, words: &[Text], cloud: SimCloud) -> (Exit, SimCloud)
    ensures { HasCalled words.now cloud result.1 result.0 }
{
    nothing_kept_is_sound();
    let mut source = StdSource::new(rt.reader());
    let mut sink = StdSink::new(io::writer(rt));
    let Outcome { status, end } = converge_shipped(
        rt.alloc(),
        words,
        &mut source,
        &mut sink,
        Unkept,
        cloud,
    );
    let (_keeper, cloud) = end.give_back();
    (status, cloud)
}

// The same over the cloud of a file, which is written back whatever the status.
fn call_kept(rt: &HostRuntime, words: &[Text], path: &Text) -> Ended
    ensures { EndsOver words.now result }
{
    match load(rt, path) {
        Ok(cloud) => {
            let (status, cloud) = call(rt, words, cloud);
            Ended::after(status, store(rt, path, &cloud))
        }
        Err(fault) => Ended::from(fault),
    }
}

// Does what these words ask for.
fn run_by(rt: &HostRuntime, words: &[Text]) -> Result<Ended, AllocError>
    ensures { IfOk result (EndsBy words.now) }
{
    match cloud_path(rt.alloc(), words)? {
        Some(path) => Ok(call_kept(rt, words, &path)),
        None => {
            let (status, _cloud) = call(rt, words, empty_cloud(rt.alloc())?);
            Ok(Ended::Called(status))
        }
    }
}

// Does what the program's words ask for.
fn run(rt: &HostRuntime) -> Result<Ended, AllocError>
    ensures { IfOk result EndsSo }
{
    let args = match env::args(rt) {
        Ok(args) => args,
        Err(error) => return Ok(Ended::Called(without_words(&error))),
    };
    let words = words_of_args(rt.alloc(), args)?;
    run_by(rt, &words)
}

// Says on standard error how the program ended.
fn say(rt: &HostRuntime, ended: &Ended) {
    let words = words_for(ended);
    match ended {
        Ended::Called(Exit::Done) => {}
        Ended::Called(Exit::Disagree(token, finding)) => {
            let (stack, name, row) = (token.stack.as_str(), token.name.as_str(), token.row.get());
            let finding = word_for(*finding);
            let _ = eprintln!(rt; "heat_converge: {words} {stack}/{name}/{row} {finding}");
        }
        Ended::Called(Exit::Usage) => {
            let _ = eprintln!(rt; "heat_converge: {words}");
            say_forms(rt);
        }
        Ended::CloudFile(fault) => {
            let _ = eprintln!(rt; "heat_converge: {words}");
            say_fault(rt, fault);
        }
        Ended::Called(_) => {
            let _ = eprintln!(rt; "heat_converge: {words}");
        }
    }
}

// Says in a second line what is wrong with the cloud file; without memory there is no such line.
fn say_fault(rt: &HostRuntime, fault: &FileFault) {
    if let Ok(line) = line_for(rt.alloc(), fault) {
        let _ = eprintln!(rt; "heat_converge: {}", line.as_str());
    }
}

// Says behind it which words the program takes; without memory there is no such text.
fn say_forms(rt: &HostRuntime) {
    if let Ok(text) = usage(rt.alloc()) {
        let _ = eprint!(rt; "{}", text.as_str());
    }
}

fn main(rt: HostRuntime) -> ExitCode {
    let ended = match run(&rt) {
        Ok(ended) => ended,
        Err(_) => Ended::Called(Exit::Memory),
    };
    say(&rt, &ended);
    ExitCode::from(ended.code())
}
