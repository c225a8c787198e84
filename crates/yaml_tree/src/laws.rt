//! Laws of the trees, each the contract of an empty function.

ghost use Rattle.yaml_tree.specs.Laws.{EqualTreesHashAlike};

/// Equal trees feed a hasher the same.
pub fn equal_trees_hash_alike()
    ensures { EqualTreesHashAlike }
{}
