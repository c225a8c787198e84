//! Where a key's place stands, found by halving.
ghost use Rattle.std.specs.Prelude.{◌≡◌, ◌+◌, ◌*◌, ◌^◌, ◌<◌, ◌≤◌, length, IfOk, IfErr};
ghost use Rattle.defs_tree.specs.Digits.{binary_digits};
ghost use Rattle.defs_tree.specs.Order.{tree_cmp};
ghost use Rattle.yaml_tree.specs.Counts.{RisesWithin};
ghost use Rattle.yaml_tree.specs.Probes.{probed};
ghost use Rattle.yaml_tree.specs.Digests.{digest, first_by};
ghost use Rattle.yaml_tree.specs.Places.{places, rank_at, HasSpot, HasPlace, IsIndexed};
ghost use Rattle.yaml_tree.specs.Ranked.{IsRank, IsRankGap};
ghost use Rattle.yaml_tree.specs.View.{view, items_view, pairs_view};

use crate::Spot;
use crate::digest::{digest, digest_of_text};
use crate::ranks::Ranks;
use crate::steps::Steps;
use crate::yaml::Yaml;
use std::cmp::Ordering;

/// The spot that a key would have, and its digest if digests are kept.
#[derive(Clone, Copy)]
pub(crate) struct Gap {
    pub(crate) spot: Spot,
    pub(crate) digest: u64,
}

/// What is looked up: a key, or the key `String` with a text.
#[derive(Clone, Copy)]
pub(crate) enum Probe<'a> {
    Node(&'a Yaml),
    Text(&'a str),
}

impl<'a> Probe<'a> {
    // The same, as a text if it is a `String`, so that a comparison need not look at its kind again.
    #[tactic(auto, unfolding(defs_text::specs::Text::string_chars))]
    fn plain(self) -> Probe<'a>
        ensures { probed result ≡ probed self.entry }
    {
        match self {
            Probe::Node(Yaml::String(text)) => Probe::Text(text.as_str()),
            _ => self,
        }
    }

    /// The digest of what is looked up.
    pub(crate) fn digest(self) -> u64
        ensures digest { result ≡ digest (probed self.entry) }
        ensures next { result + 1 < 2 ^ 64 }
    {
        match self {
            Probe::Node(node) => digest(node),
            Probe::Text(text) => digest_of_text(text),
        }
    }

    fn compare(self, key: &Yaml, steps: &mut Steps) -> Ordering
        ensures order { result ≡ tree_cmp (probed self.entry) (view key.now) }
        ensures keys { steps.new.keys ≡ steps.old.keys + 1 }
        ensures digests { steps.new.digests ≡ steps.old.digests }
    {
        match self {
            Probe::Node(node) => steps.compare(node, key),
            Probe::Text(text) => steps.compare_text(text, key),
        }
    }
}

/// The spot of a key as `Ok`, or as `Err` the gap that it would fill if no pair has it.
#[inline(always)]
pub(crate) fn search(
    row: &[Yaml],
    ranks: &Ranks,
    probe: Probe<'_>,
    steps: &mut Steps,
) -> Result<Spot, Gap>
    requires { IsIndexed (items_view row.now) ranks.now.kept }
    ensures place { IfOk result (λ s. HasPlace ranks.now.kept s) }
    ensures found { IfOk result (λ s. IsRank (probed probe.entry) (places ranks.now.kept) (pairs_view row.now) (rank_at ranks.now.kept s)) }
    ensures spot { IfErr result (λ g. HasSpot ranks.now.kept g.spot) }
    ensures missing { IfErr result (λ g. IsRankGap (first_by ranks.now.kept) (probed probe.entry) (places ranks.now.kept) (pairs_view row.now) (rank_at ranks.now.kept g.spot)) }
    ensures digest { IfErr result (λ g. g.digest ≡ first_by ranks.now.kept (probed probe.entry)) }
    ensures keys { RisesWithin steps.old.keys (binary_digits (length (places ranks.now.kept))) steps.new.keys }
    ensures digests { RisesWithin steps.old.digests (4 * binary_digits (length (places ranks.now.kept)) + 1) steps.new.digests }
{
    let probe = probe.plain();
    let digest = ranks.digest(probe);
    let (mut low, mut count) = ranks.window(digest, &mut steps.digests);
    while 0 < count {
        let half = count / 2;
        let middle = ranks.advanced(low, half);
        let place = ranks.at(middle);
        match probe.compare(&row[2 * place], steps) {
            Ordering::Less => count = half,
            Ordering::Greater => {
                low = Spot {
                    block: middle.block,
                    offset: middle.offset + 1,
                };
                count -= half + 1;
            }
            Ordering::Equal => return Ok(middle),
        }
    }
    Err(Gap { spot: low, digest })
}
