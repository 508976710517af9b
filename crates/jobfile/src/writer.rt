// How far a job file is written.
ghost use Rattle.std.specs.Prelude.{◌+◌, ◌*◌, ◌≤◌};

mod calls;

/// A file that is being written; its state is plain numbers, and its memory is lent at each call.
#[derive(Clone, Copy)]
pub struct Writer {
    types: u8,
    nozzles: u8,
    done: u8,
    written: usize,
    ghost some_types: { 1 ≤ types },
    ghost few_types: { types ≤ 24 },
    ghost some_nozzles: { 1 ≤ nozzles },
    ghost few_nozzles: { nozzles ≤ 8 },
    ghost within: { done ≤ types },
    ghost short: { written ≤ 2 + 27 * done },
}
