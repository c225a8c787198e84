//! Writes that land in the tree.
use crate::made::{tree, word};
use std::alloc::Global;
use std::test::Fail;
use yaml_tree::Yaml;

fn write_by_key(node: &mut Yaml, key: &str, value: Yaml) {
    if node.has_key(key) {
        *node.key_mut(key) = value;
    }
}

fn write_by_index(node: &mut Yaml, index: usize, value: Yaml) {
    if node.has_index(index) {
        *node.place_mut(index) = value;
    }
}

// In the value of a key: writes over an item, and adds one.
fn write_below(alloc: Global, node: &mut Yaml, key: &str) -> Result<(), Fail> {
    let key = word(alloc, key)?;
    let pairs = node.as_mut_hash().ok_or("no hash")?;
    let items = pairs.get_mut(&key).ok_or("no value")?;
    write_by_index(items, 1, Yaml::Integer(5));
    items.as_mut_vec().ok_or("no array")?.push(Yaml::Null)?;
    Ok(())
}

fn written(alloc: Global) -> Result<Yaml, Fail> {
    let mut node = tree(alloc, "pairs")?;
    write_by_key(&mut node, "c", Yaml::Boolean(true));
    write_by_key(&mut node, "x", Yaml::Boolean(true));
    write_by_index(&mut node, 0, Yaml::Null);
    write_by_index(&mut node, 7, Yaml::Null);
    write_below(alloc, &mut node, "a")?;
    Ok(node)
}

#[test]
fn what_is_written_lands_in_the_tree(rt: HostRuntime) -> Result<(), Fail> {
    let node = written(rt.alloc())?;
    let words = format!(in rt.alloc(); "{node:?}")?;
    assert_eq!(rt;
        words.as_str(),
        "Hash({Integer(0): Null, String(\"a\"): Array([Integer(1), Integer(5), Null]), String(\"c\"): Boolean(true)})"
    );
    Ok(())
}

#[test]
fn other_kinds_are_not_written(rt: HostRuntime) -> Result<(), Fail> {
    let mut items = tree(rt.alloc(), "items")?;
    assert!(rt; items.as_mut_hash().is_none());
    let mut pairs = tree(rt.alloc(), "pairs")?;
    assert!(rt; pairs.as_mut_vec().is_none());
    Ok(())
}
