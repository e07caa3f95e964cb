// "A support engineer has a log of a machine": reads it from standard input, as the replay program does, and writes one
// static HTML page of the machine after the last call. Its argument names a file with the names of the signals.
#![tactic(auto)]

ghost use Rattle.std.specs.Prelude.{IfOk, ◌≡◌, ◌≤◌, length};
ghost use Rattle.page_names.specs.Names.{most_names};

use page_heads::Unused;
use std::env::{Env, FillError};
use std::fs::File;
use std::rt::Files;

// The names of the file that the first argument names; none without an argument.
fn names_given(rt: &(impl Files<File = File> + Env), names: &mut [u8]) -> Result<usize, Unused>
    ensures { IfOk result (λ size. (size ≤ most_names) × (size ≤ length names.new)) }
{
    let mut path = [0; 4096];
    match rt.arg(1, &mut path) {
        Ok(size) => page_story::read_names(rt, &path[..size], names),
        Err(FillError::NotPresent) => Ok(0),
        Err(FillError::TooLong) => Err(Unused::Unreadable),
    }
}

// Room for a page. The `ensures` gives only the length.
fn blank() -> [u8; page_story::MOST_PAGE]
    ensures { 2010000 ≡ length result }
{
    [0; page_story::MOST_PAGE]
}

fn main(rt: HostRuntime) {
    let mut input = [0; 32768];
    let mut beyond = [0; 1];
    let mut names = [0; 65536];
    let mut buffer = blank();
    let size = io::read_full(0, &mut input);
    let longer = 0 < io::read_full(0, &mut beyond);
    let given = names_given(&rt, &mut names);
    let length = page_story::page(
        &mut buffer,
        &input[..size],
        longer,
        &names[..given.unwrap_or(0)],
        given.err(),
    );
    io::write_all(1, &buffer[..length]);
}
