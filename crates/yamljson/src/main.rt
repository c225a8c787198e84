//! `yamljson [OPTION]... [FILE]...` prints the documents of YAML files as JSON. `yamljson --help` has the options.
#![tactic(auto)]

mod failure;
mod place;
pub mod run;
#[cfg(test)]
mod tests;

use run::YamlJson;
use std::io;
use std::process::ExitCode;
use yaml_programs::{FileProgram, arguments};

fn main(rt: HostRuntime) -> ExitCode {
    let alloc = rt.alloc();
    let mut input = rt.stdin();
    let out = io::BufWriter::new(alloc, rt.stdout());
    let mut err = rt.stderr();
    let args = arguments(&rt);
    ExitCode::from(YamlJson::start(&rt, alloc, args, &mut input, out, &mut err))
}
