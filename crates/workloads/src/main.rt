//! The jobs that a user of the converter waits for, on streams that it makes: `bench/run` times
//! them. The words are a job, a seed and an amount; the program prints a digest of all results.
//! The job `all` runs each.
#![tactic(auto)]

mod digest;
mod hostile;
mod jobs;
mod random;
mod signals;
mod stream;
mod template;
mod text;

use crate::digest::Digest;
use std::alloc::Global;
use std::io;
use std::process::ExitCode;

/// The jobs by name.
const JOBS: [&str; 6] = ["bulk", "live", "check", "signals", "corrupted", "unordered"];

fn main(rt: HostRuntime) -> ExitCode {
    match run(&rt) {
        Ok(true) => ExitCode::SUCCESS,
        _ => ExitCode::FAILURE,
    }
}

/// Runs the jobs that the words ask for. Returns whether there are such jobs, and all succeeded.
fn run(rt: &HostRuntime) -> io::Result<bool> {
    let alloc: Global = rt.alloc();
    let words: Vec<String> = std::env::args(rt)?.collect(alloc)?;
    let [_, job, seed, amount] = words.as_slice() else {
        return Ok(false);
    };
    let (Ok(seed), Ok(amount)) = (seed.as_str().parse::<u64>(), amount.as_str().parse::<u64>())
    else {
        return Ok(false);
    };
    let mut is_done = false;
    for name in JOBS {
        if job.as_str() == name || job.as_str() == "all" {
            match digest_of(alloc, name, seed, amount) {
                Some(value) => println!(rt; "{name} {value:016x}")?,
                None => return Ok(false),
            }
            is_done = true;
        }
    }
    Ok(is_done)
}

/// Returns the digest of the results of a job.
fn digest_of(alloc: Global, job: &str, seed: u64, amount: u64) -> Option<u64> {
    let digest = Digest::new(Vec::new(alloc));
    let done = match job {
        "bulk" => jobs::bulk(alloc, seed, amount, digest),
        "live" => jobs::live(alloc, seed, amount, digest),
        "check" => jobs::check(alloc, seed, amount, digest),
        "signals" => jobs::signals(alloc, seed, amount, digest),
        "corrupted" => jobs::corrupted(alloc, seed, amount, digest),
        _ => jobs::unordered(alloc, seed, amount, digest),
    };
    let mut digest = done?;
    Some(digest.value())
}
