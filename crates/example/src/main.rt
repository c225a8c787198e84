//! Settings: loaded, looked up, changed, and written anew.
#![tactic(auto)]

use std::alloc::{AllocError, Global};
use std::io;
use thiserror::Error;
use yaml_rust2::{EmitError, ScanError, Yaml, YamlEmitter, YamlLoader};

const SETTINGS: &str = "host: example.org   # where it runs\nport: 8000\n";

#[derive(Debug, Drop, Error)]
enum Failure {
    #[error(transparent)]
    Scan(#[from] ScanError),
    #[error(transparent)]
    Emit(#[from] EmitError),
    #[error(transparent)]
    Memory(#[from] AllocError),
    #[error("these are no settings")]
    NoSettings,
}

fn main(rt: HostRuntime) -> io::Result<()> {
    match with_port(rt.alloc(), SETTINGS, 8080) {
        Ok(text) => println!(rt; "{text}"),
        Err(failure) => println!(rt; "{failure}"),
    }
}

// The settings with another port, as a text.
fn with_port(alloc: Global, settings: &str, port: i64) -> Result<String, Failure> {
    let mut documents = YamlLoader::load_from_str(alloc, settings)?;
    let Some(document) = documents.pop() else {
        return Err(Failure::NoSettings);
    };
    if host(&document).is_none() {
        return Err(Failure::NoSettings);
    }
    let Some(mut settings) = document.into_hash() else {
        return Err(Failure::NoSettings);
    };
    let key = Yaml::String(String::from_str(alloc, "port")?);
    settings
        .insert(key, Yaml::Integer(port))
        .map_err(|_| AllocError)?;
    let mut text = String::new(alloc);
    YamlEmitter::new(&mut text).dump(&Yaml::Hash(settings))?;
    Ok(text)
}

fn host(settings: &Yaml) -> Option<&str> {
    settings.get_key("host")?.as_str()
}
