use crate::job::Settings;
use std::alloc::{AllocError, Global};
use yaml_emitter::YamlEmitter;
use yaml_loader::YamlLoader;
use yaml_tree::Yaml;

/// The trees of a text, a line each, or the line of its fault.
pub fn trees(alloc: Global, text: &str) -> Result<String, AllocError> {
    match YamlLoader::load_from_str(alloc, text) {
        Ok(documents) => lines_of(alloc, documents.as_slice()),
        Err(fault) => Ok(format!(in alloc; "ERR {fault}\n")?),
    }
}

/// The trees, a line each.
pub fn lines_of(alloc: Global, documents: &[Yaml]) -> Result<String, AllocError> {
    let mut lines = String::new(alloc);
    for document in documents {
        lines.push_str(format!(in alloc; "{document:?}\n")?.as_str())?;
    }
    Ok(lines)
}

/// The dump of each tree of a text and a line feed, or the line of its fault.
pub fn dumps(alloc: Global, text: &str, settings: Settings) -> Result<String, AllocError> {
    match YamlLoader::load_from_str(alloc, text) {
        Ok(documents) => dumps_of(alloc, documents.as_slice(), settings),
        Err(fault) => Ok(format!(in alloc; "ERR {fault}\n")?),
    }
}

fn dumps_of(alloc: Global, documents: &[Yaml], settings: Settings) -> Result<String, AllocError> {
    let mut lines = String::new(alloc);
    for document in documents {
        let mut emitter = YamlEmitter::new(&mut lines);
        emitter.compact(settings.compact);
        emitter.multiline_strings(settings.multiline);
        emitter.dump(document).map_err(|_| AllocError)?;
        lines.push_str("\n")?;
    }
    Ok(lines)
}
