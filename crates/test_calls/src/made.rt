//! Trees to ask.
use std::alloc::Global;
use std::test::Fail;
use yaml_tree::{Array, Hash, Yaml};

pub(crate) fn word(alloc: Global, text: &str) -> Result<Yaml, Fail> {
    Ok(Yaml::String(String::from_str(alloc, text)?))
}

/// Adds a pair, and gives the key's old value.
pub(crate) fn put(pairs: &mut Hash, key: Yaml, value: Yaml) -> Result<Option<Yaml>, Fail> {
    match pairs.insert(key, value) {
        Ok(old) => Ok(old),
        Err(_) => Err(Fail::from("no memory")),
    }
}

// `[1, 2]`
fn items(alloc: Global) -> Result<Yaml, Fail> {
    let mut items = Array::new(alloc);
    items.push(Yaml::Integer(1))?;
    items.push(Yaml::Integer(2))?;
    Ok(Yaml::Array(items))
}

fn inner(alloc: Global) -> Result<Yaml, Fail> {
    let mut pairs = Hash::new(alloc);
    let _ = put(&mut pairs, word(alloc, "important")?, Yaml::Boolean(true))?;
    Ok(Yaml::Hash(pairs))
}

// `{0: {important: true}, a: [1, 2], c: d}`
fn pairs(alloc: Global) -> Result<Yaml, Fail> {
    let mut pairs = Hash::new(alloc);
    let _ = put(&mut pairs, Yaml::Integer(0), inner(alloc)?)?;
    let _ = put(&mut pairs, word(alloc, "a")?, items(alloc)?)?;
    let _ = put(&mut pairs, word(alloc, "c")?, word(alloc, "d")?)?;
    Ok(Yaml::Hash(pairs))
}

/// A tree by its name.
pub(crate) fn tree(alloc: Global, name: &str) -> Result<Yaml, Fail> {
    match name {
        "null" => Ok(Yaml::Null),
        "bad" => Ok(Yaml::BadValue),
        "flag" => Ok(Yaml::Boolean(false)),
        "number" => Ok(Yaml::Integer(3)),
        "real" => Ok(Yaml::Real(String::from_str(alloc, "2.5")?)),
        "items" => items(alloc),
        "pairs" => pairs(alloc),
        text => word(alloc, text),
    }
}
