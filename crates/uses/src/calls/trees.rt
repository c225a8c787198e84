//! Trees: read, changed, built, and written.
use crate::calls::failure::Failure;
use std::alloc::{AllocError, Global};
use yaml_rust2::yaml::{Array, Hash};
use yaml_rust2::{Yaml, YamlEmitter, YamlLoader};

/// The numbers in a service's list of ports.
pub fn ports(alloc: Global, text: &str, service: &str) -> Result<Vec<i64>, Failure> {
    let documents = YamlLoader::load_from_str(alloc, text)?;
    let mut ports = Vec::new(alloc);
    let Some(list) = documents
        .first()
        .and_then(|document| list_of(document, service))
    else {
        return Err(Failure::NoServices);
    };
    for item in list.iter() {
        if let Some(port) = item.as_i64() {
            ports.push(port).map_err(|_| AllocError)?;
        }
    }
    Ok(ports)
}

fn list_of<'a>(document: &'a Yaml, service: &str) -> Option<&'a Array> {
    document.get_key(service)?.get_key("ports")?.as_vec()
}

/// The names of all services, in the order of the text.
pub fn services(alloc: Global, document: &Yaml) -> Result<Vec<String>, Failure> {
    let mut names = Vec::new(alloc);
    let Some(services) = document.as_hash() else {
        return Err(Failure::NoServices);
    };
    for (name, _) in services.iter() {
        if let Some(name) = name.as_str() {
            names
                .push(String::from_str(alloc, name)?)
                .map_err(|_| AllocError)?;
        }
    }
    Ok(names)
}

/// Sets the value of a key to `true`, in a document that is a hash with that key.
pub fn change(alloc: Global, document: &mut Yaml, key: &str) -> Result<(), Failure> {
    let key = Yaml::String(String::from_str(alloc, key)?);
    match document.as_mut_hash().and_then(|hash| hash.get_mut(&key)) {
        Some(value) => {
            *value = Yaml::Boolean(true);
            Ok(())
        }
        None => Err(Failure::NoServices),
    }
}

/// A tree that is built by hand: a service with its ports.
pub fn service(alloc: Global, name: &str, ports: &[i64]) -> Result<Yaml, Failure> {
    let mut list = Array::new(alloc);
    for port in ports {
        list.push(Yaml::Integer(*port)).map_err(|_| AllocError)?;
    }
    let name = Yaml::String(String::from_str(alloc, name)?);
    let mut service = Hash::new(alloc);
    service
        .insert(name, Yaml::Array(list))
        .map_err(|_| AllocError)?;
    Ok(Yaml::Hash(service))
}

/// The text of a tree whose arrays and hashes start on lines of their own.
pub fn spread(alloc: Global, tree: &Yaml) -> Result<String, Failure> {
    let mut text = String::new(alloc);
    let mut emitter = YamlEmitter::new(&mut text);
    emitter.compact(false);
    emitter.multiline_strings(true);
    emitter.dump(tree)?;
    Ok(text)
}
