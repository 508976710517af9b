// Plans a job file from standard input, and prints the outcome and each subtour of the plan.
#![tactic(auto)]

ghost use Rattle.std.specs.Prelude.{◌≤◌, length, IfOk};

use book::{JobFault, Outcome};
use file_input::read_file;
use job::Job;
use loading::load;
use path_engine::PathEngine;
use report::{LONGEST_LINE, outcome_line, refusal_line, subtour_line};
use std::io::{BufWriter, Write};

fn plan(job: &mut Job, bytes: &[u8]) -> Result<Outcome, JobFault> {
    load(job, 1, bytes)?;
    job.plan(&mut PathEngine::new())
}

/// Prints a line of so many bytes.
fn print(line: &[u8], written: Result<usize, JobFault>, out: &mut impl Write) -> anyhow::Result<()>
    requires { IfOk written (λ n. n ≤ length line.now) }
{
    let count = written?;
    out.write_all(&line[0..count])?;
    Ok(())
}

fn print_subtours(
    job: &Job,
    cost: u32,
    line: &mut [u8],
    out: &mut impl Write,
) -> anyhow::Result<()> {
    for subtour in 1..=cost {
        let written = subtour_line(job, subtour, line);
        print(line, written, out)?;
    }
    Ok(())
}

fn print_answer(
    job: &Job,
    answer: Result<Outcome, JobFault>,
    out: &mut impl Write,
) -> anyhow::Result<()> {
    let mut line = [0; LONGEST_LINE];
    let written = match answer {
        Ok(outcome) => outcome_line(outcome, &mut line),
        Err(fault) => refusal_line(fault, &mut line),
    };
    print(&line, written, out)?;
    if let Ok(Outcome::Planned { cost, .. }) = answer {
        print_subtours(job, cost, &mut line, out)?;
    }
    Ok(())
}

fn run(rt: &HostRuntime) -> anyhow::Result<()> {
    let bytes = read_file(rt.alloc(), rt.stdin())?;
    let mut job = Job::blank();
    let answer = plan(&mut job, bytes.as_slice());
    let mut out = BufWriter::new(rt.alloc(), rt.stdout())?;
    print_answer(&job, answer, &mut out)?;
    out.flush()?;
    Ok(())
}

fn main(rt: HostRuntime) -> anyhow::Result<()> {
    run(&rt)
}
