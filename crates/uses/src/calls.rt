//! The library's main calls, a few lines each: the examples of the doc comments.

mod bytes;
mod events;
mod failure;
#[cfg(test)]
mod tests;
mod trees;

use crate::calls::bytes::documents_of_bytes;
use crate::calls::events::{count_scalars, count_tokens};
use crate::calls::failure::Failure;
use crate::calls::trees::{change, ports, service, services, spread};
use std::alloc::{AllocError, Global};
use yaml_rust2::yaml::Array;
use yaml_rust2::{Yaml, YamlLoader};

const SERVICES: &str = "web:\n  ports: [80, 443]\nmail:\n  ports: [25]\n";

/// What the calls give, a line each.
pub fn examples(alloc: Global) -> Result<Vec<String>, Failure> {
    let mut lines = Vec::new(alloc);
    let found = ports(alloc, SERVICES, "web")?;
    lines
        .push(format!(in alloc; "ports: {found:?}")?)
        .map_err(|_| AllocError)?;
    let scalars = count_scalars(alloc, SERVICES)?;
    let tokens = count_tokens(alloc, SERVICES);
    lines
        .push(format!(in alloc; "{scalars} scalars, {tokens} tokens")?)
        .map_err(|_| AllocError)?;
    let documents = documents_of_bytes(alloc, b"\xFF\xFEa\0:\0 \01\0")?;
    lines
        .push(format!(in alloc; "{documents:?}")?)
        .map_err(|_| AllocError)?;
    lines.push(edited(alloc)?).map_err(|_| AllocError)?;
    Ok(lines)
}

// The first document, with a service more and one that is switched on.
fn edited(alloc: Global) -> Result<String, Failure> {
    let mut documents = YamlLoader::load_from_str(alloc, SERVICES)?;
    let Some(mut document) = documents.pop() else {
        return Err(Failure::NoServices);
    };
    let names = services(alloc, &document)?;
    change(alloc, &mut document, "mail")?;
    let mut list = Array::new(alloc);
    list.push(document).map_err(|_| AllocError)?;
    list.push(service(alloc, "ftp", [20, 21].as_slice())?)
        .map_err(|_| AllocError)?;
    let text = spread(alloc, &Yaml::Array(list))?;
    Ok(format!(in alloc; "{names:?}\n{text}")?)
}
