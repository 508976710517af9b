// Vets a job file from standard input, and tells what it says.
#![tactic(auto)]

use file_input::read_file;
use inspection::report;
use std::io;
use std::io::Write;

fn main(rt: HostRuntime) -> io::Result<()> {
    let bytes = read_file(rt.alloc(), rt.stdin())?;
    let text = report(rt.alloc(), bytes.as_slice())?;
    rt.stdout().write_all(text.as_slice())
}
