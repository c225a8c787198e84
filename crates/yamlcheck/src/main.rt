//! `yamlcheck [OPTION]... [FILE]...` tells the first fault of each YAML file, with its line. `yamlcheck --help` has the options.
#![tactic(auto)]

mod failure;
pub mod run;
#[cfg(test)]
mod tests;

use run::YamlCheck;
use std::io;
use std::process::ExitCode;
use yaml_programs::{FileProgram, arguments};

fn main(rt: HostRuntime) -> ExitCode {
    let alloc = rt.alloc();
    let mut input = rt.stdin();
    let out = io::BufWriter::new(alloc, rt.stdout());
    let mut err = rt.stderr();
    let args = arguments(&rt);
    ExitCode::from(YamlCheck::start(&rt, alloc, args, &mut input, out, &mut err))
}
