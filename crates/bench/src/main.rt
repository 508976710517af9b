// Plans a job file from standard input many times, for timing: bench PLANS ENGINE, with `path` or
// `push` for ENGINE.
#![tactic(auto)]

ghost use Rattle.std.specs.Prelude.{◌≡◌, ◌+◌, ◌-◌, ◌^◌, min, MatchOption};
ghost use Rattle.book.specs.Books.{cost_in, runs_of};

use anyhow::anyhow;
use book::{JobFault, Outcome};
use engines::AnyEngine;
use file_input::read_file;
use job::Job;
use loading::load;
use report::{LONGEST_LINE, refusal_line};
use std::env;
use std::io::Write;

const USAGE: &str = "usage: bench PLANS ENGINE, with path or push for ENGINE";

/// What all plannings cost, and how many runs they took.
#[derive(Clone, Copy, Default)]
struct Sums {
    cost: u64,
    runs: u64,
}

impl Sums {
    /// Adds one planning more; a short one has no cost.
    fn add(&mut self, outcome: Outcome)
        ensures cost { MatchOption (cost_in outcome) (self.new.cost ≡ self.old.cost) (λ cost. self.new.cost ≡ min (self.old.cost + cost) (2 ^ 64 - 1)) }
        ensures runs { self.new.runs ≡ min (self.old.runs + runs_of outcome) (2 ^ 64 - 1) }
    {
        if let Some(cost) = outcome.cost() {
            self.cost = self.cost.saturating_add(u64::from(cost));
        }
        self.runs = self.runs.saturating_add(outcome.runs() as u64);
    }
}

fn plan_all(bytes: &[u8], plans: u32, engine: &mut AnyEngine) -> Result<Sums, JobFault> {
    let mut job = Job::blank();
    load(&mut job, 1, bytes)?;
    let mut sums = Sums::default();
    for _ in 0..plans {
        sums.add(job.plan(engine)?);
    }
    Ok(sums)
}

fn print_refusal(rt: &HostRuntime, fault: JobFault) -> anyhow::Result<()> {
    let mut line = [0; LONGEST_LINE];
    let count = refusal_line(fault, &mut line)?;
    rt.stdout().write_all(&line[0..count])?;
    Ok(())
}

fn run(rt: &HostRuntime) -> anyhow::Result<()> {
    let mut args = env::args(rt)?;
    let _program = args.next();
    let (Some(plans), Some(name), None) = (args.next(), args.next(), args.next()) else {
        return Err(anyhow!(USAGE));
    };
    let (Ok(plans), Ok(mut engine)) = (plans.parse::<u32>(), name.parse::<AnyEngine>()) else {
        return Err(anyhow!(USAGE));
    };
    let bytes = read_file(rt.alloc(), rt.stdin())?;
    match plan_all(bytes.as_slice(), plans, &mut engine) {
        Ok(Sums { cost, runs }) => {
            println!(rt; "plans {plans} cost {cost} runs {runs}")?;
            Ok(())
        }
        Err(fault) => print_refusal(rt, fault),
    }
}

fn main(rt: HostRuntime) -> anyhow::Result<()> {
    run(&rt)
}
