//! Arrays and hashes of which some parts were passed.
ghost use Rattle.std.specs.Prelude.{◌≡◌, true};
ghost use Rattle.defs_tree.specs.Box.{is_block};
ghost use Rattle.yaml_json.specs.Given.{IsGiven, ArePartsGiven};
ghost use Rattle.yaml_json.specs.Left.{opening, closing};
ghost use Rattle.yaml_json.specs.Level.{tree_left};
ghost use Rattle.yaml_tree.specs.View.{view};

use yaml_tree::Yaml;

/// An array or a hash of which some parts were passed: what waits at one level of a tree, while a walk is in a deeper one.
#[derive(Clone, Copy)]
pub(crate) struct Level<'a> {
    /// The items, or the keys and values in turn.
    pub(crate) row: &'a [Yaml],
    /// How many of these nodes were passed.
    pub(crate) passed: usize,
    /// Whether it is a hash.
    pub(crate) is_hash: bool,
}

impl<'a> Level<'a> {
    /// A node that has parts, of which none was passed.
    #[tactic(auto, using(crate::proofs::GivenLemmas::given_hash))]
    pub(crate) fn of(node: &'a Yaml) -> Level<'a>
        requires { is_block (view node.now) ≡ true }
        ensures tree { tree_left result ≡ view node.now }
        ensures none_passed { result.passed ≡ 0 }
        ensures given { ArePartsGiven (view node.now) → IsGiven (view node.now) }
    {
        match node {
            Yaml::Array(items) => Level {
                row: items.as_slice(),
                passed: 0,
                is_hash: false,
            },
            Yaml::Hash(pairs) => Level {
                row: pairs.row(),
                passed: 0,
                is_hash: true,
            },
            _ => unreachable!(),
        }
    }

    /// The bracket before the parts.
    pub(crate) fn opening(self) -> &'static str
        ensures { result.now ≡ opening (tree_left self.entry) }
    {
        if self.is_hash { "{" } else { "[" }
    }

    /// The bracket after them.
    pub(crate) fn closing(self) -> &'static str
        ensures { result.now ≡ closing (tree_left self.entry) }
    {
        if self.is_hash { "}" } else { "]" }
    }
}
