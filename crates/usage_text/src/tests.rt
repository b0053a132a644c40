//! The whole text.
use crate::usage;
use std::test::Fail;

const TEXT: &str = "\
Takes stacks of resources to their HOT templates, over a simulated cloud.

Reads a script of stack commands on standard input. The report goes to standard output, after each
line what it adds; it alone says which lines were refused and which stacks failed.

Usage: heat_converge drive [OPTIONS]

Options:
      --workers <n>   Engines that are live at first, 1 to 64 [default: 1]
      --cloud <file>  The simulated cloud, a JSON file, read first and written back at the end;
                      without it, or where there is no such file, the cloud is empty

An option comes at most once, its value behind it or behind `=`; the word `--` ends the options.

Example: heat_converge drive --workers 2 --cloud cloud.json < stacks.script > report

Status 0 says that the script was read to its end, and that all is written. README.md, under \"Use\",
says what the other statuses mean, and what each line of a script does.
";

#[test]
fn the_text_is_this(rt: HostRuntime) -> Result<(), Fail> {
    assert_eq!(rt; usage(rt.alloc())?.as_str(), TEXT);
    Ok(())
}
