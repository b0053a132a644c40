//! A program with a cloud of its own: it hands the top call a provider that needs polls and tells its
//! facts late, and reads and writes as heat_converge does. Whoever has a real cloud begins here.
#![tactic(auto)]

mod numbering_cloud;

use converge_call::{Outcome, Unkept, converge_shipped};
use heat_io::{StdSink, StdSource};
use heat_value::Text;
use numbering_cloud::NumberingCloud;
use std::alloc::AllocError;
use std::io;
use std::process::ExitCode;

// Drives a numbering cloud by standard input.
fn run(rt: &HostRuntime) -> Result<u8, AllocError> {
    let alloc = rt.alloc();
    let mut words = Vec::new(alloc);
    words.push(Text::from_str(alloc, "drive")?)?;
    let mut source = StdSource::new(rt.reader());
    let mut sink = StdSink::new(io::writer(rt));
    let cloud = NumberingCloud::new(alloc);
    let Outcome { status, end } = converge_shipped(
        alloc,
        &words,
        &mut source,
        &mut sink,
        Unkept,
        cloud,
    );
    let (_keeper, _cloud) = end.give_back();
    Ok(status.code())
}

fn main(rt: HostRuntime) -> ExitCode {
    match run(&rt) {
        Ok(status) => ExitCode::from(status),
        Err(_) => ExitCode::from(7),
    }
}
