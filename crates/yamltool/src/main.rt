//! `yamltool events FILE` prints the events of a YAML file, one line each. `yamltool dump FILE` loads a file and
//! writes its documents anew. `yamltool overlay A B` writes B's document laid over A's.
#![tactic(auto)]

mod command;
mod failure;
pub mod run;
#[cfg(test)]
mod tests;
mod text;

use run::YamlTool;
use std::io;
use std::process::ExitCode;
use yaml_programs::arguments;

fn main(rt: HostRuntime) -> ExitCode {
    let alloc = rt.alloc();
    let out = io::BufWriter::new(alloc, rt.stdout());
    let mut err = rt.stderr();
    ExitCode::from(YamlTool::start(&rt, alloc, arguments(&rt), out, &mut err))
}
