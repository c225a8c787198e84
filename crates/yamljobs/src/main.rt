//! Does the jobs that users wait for, on texts that it makes: `yamljobs JOB SEED COUNT`. It prints one number of all
//! results. bench/run takes the time. `yamljobs text NAME SEED` prints the first text of that name which a job with this
//! seed loads.
#![tactic(auto)]

mod awkward;
mod digest;
mod files;
mod jobs;
mod json;
mod maker;
mod more_jobs;
mod random;
mod results;
mod settings;
mod words;

use crate::digest::Digest;
use crate::random::Random;
use std::{env, io};

fn main(rt: HostRuntime) -> io::Result<()> {
    let alloc = rt.alloc();
    let mut words = env::args(&rt)?.skip(1);
    let job = words.next().ok_or(io::ErrorKind::InvalidInput)?;
    if job.as_str() == "text" {
        let name = words.next().ok_or(io::ErrorKind::InvalidInput)?;
        let mut random = Random::new(number(words.next())?);
        let file = jobs::text(alloc, name.as_str(), Random::new(random.next()))?;
        let text = file.text();
        return print!(rt; "{text}");
    }
    let seed = number(words.next())?;
    let count = number(words.next())?;
    let mut digest = Digest::new();
    let mut random = Random::new(seed);
    for _ in 0..count {
        let random = Random::new(random.next());
        jobs::run(alloc, job.as_str(), random, &mut digest)?;
    }
    let value = digest.value();
    println!(rt; "{job} {value:016x}")
}

fn number(word: Option<String>) -> io::Result<u64> {
    let word = word.ok_or(io::ErrorKind::InvalidInput)?;
    match word.as_str().parse::<u64>() {
        Ok(number) => Ok(number),
        Err(_) => Err(io::Error::from(io::ErrorKind::InvalidInput)),
    }
}
