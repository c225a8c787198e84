//! Lints files that describe services: a name that is not in lower case and a port that is none are told as
//! FILE:LINE:COLUMN, with the line and a caret. The status is 1 if anything was told.
#![tactic(auto)]

use std::process::ExitCode;
use std::{env, fs, io};
use yaml_loader::marked::{Marked, load_marked};
use yaml_rust2::scanner::Marker;
use yaml_tokens::Excerpt;

#[derive(Drop)]
struct Linter<'a> {
    rt: &'a HostRuntime,
    path: &'a str,
    text: &'a str,
    told: bool,
}

fn main(rt: HostRuntime) -> io::Result<ExitCode> {
    let mut status = ExitCode::SUCCESS;
    for path in env::args(&rt)?.skip(1) {
        let text = fs::read_to_string(&rt, path.as_str())?;
        let mut linter = Linter {
            rt: &rt,
            path: path.as_str(),
            text: text.as_str(),
            told: false,
        };
        linter.lint()?;
        if linter.told {
            status = ExitCode::FAILURE;
        }
    }
    Ok(status)
}

impl Linter<'_> {
    // All documents of the file, or its first fault.
    fn lint(&mut self) -> io::Result<()> {
        let documents = match load_marked(self.rt.alloc(), self.text) {
            Ok(documents) => documents,
            Err(fault) => return self.tell(*fault.marker(), fault.info()),
        };
        for document in 0..documents.len() {
            if let Some(services) = documents.get(document) {
                self.lint_services(services)?;
            }
        }
        Ok(())
    }

    fn lint_services(&mut self, services: Marked<'_>) -> io::Result<()> {
        let Some(pairs) = services.pairs() else {
            return self.tell(services.marker(), "services must have names");
        };
        for (name, service) in pairs {
            if !name.as_str().is_some_and(is_lower_case) {
                self.tell(name.marker(), "the name must be a text in lower case")?;
            }
            if let Some(port) = service.get_key("port")
                && !matches!(port.as_i64(), Some(1..=65535))
            {
                self.tell(port.marker(), "the port must be from 1 to 65535")?;
            }
        }
        Ok(())
    }

    fn tell(&mut self, mark: Marker, what: &str) -> io::Result<()> {
        self.told = true;
        let (path, line, column) = (self.path, mark.line(), mark.col() + 1);
        let excerpt = Excerpt::at(self.text, mark);
        println!(self.rt; "{path}:{line}:{column}: {what}\n{excerpt}")
    }
}

fn is_lower_case(name: &str) -> bool {
    !name.chars().any(|c| c.is_uppercase())
}
