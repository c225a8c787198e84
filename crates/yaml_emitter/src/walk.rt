//! A visit of all nodes of a tree, which changes nothing.
ghost use Rattle.yaml_tree.specs.View.{view, array_tree, hash_tree};
ghost use Rattle.yaml_emitter.specs.ValidTree.{IsValid};

use yaml_tree::{Array, Hash, Yaml};

#[cycle(look)]
pub(crate) fn look(node: &Yaml)
    ensures { IsValid (view node.now) }
{
    match node {
        Yaml::Array(items) => look_at_items(items),
        Yaml::Hash(pairs) => look_at_pairs(pairs),
        Yaml::Integer(number) => look_at_number(*number),
        _ => {}
    }
}

fn look_at_number(_number: i64) {}

#[cycle(look)]
fn look_at_items(items: &Array)
    ensures { IsValid (array_tree items.now) }
{
    'items: for item in items {
        look(item);
    }
}

#[cycle(look)]
fn look_at_pairs(pairs: &Hash)
    ensures { IsValid (hash_tree pairs.now) }
{
    'pairs: for (key, value) in pairs.iter() {
        look(key);
        look(value);
    }
}
