//! How many keys are compared where a key is looked up in a hash.
ghost use Rattle.std.specs.Prelude.{◌<◌, ◌^◌};
ghost use Rattle.yaml_rust2.specs.Counts.{RisesWithin};

use yaml_rust2::Yaml;
use yaml_rust2::laws::digits_are_least;
use yaml_rust2::yaml::{Hash, Steps};

#[cfg(test)]
mod tests;

/// How many keys a lookup of the key compares, at most: as many as the number of pairs has binary digits. It looks the key
/// up, and `steps` counts.
pub fn keys_compared(pairs: &Hash, key: &Yaml, steps: &mut Steps) -> usize
    ensures { RisesWithin steps.old.keys result steps.new.keys }
{
    digits_are_least();
    let _ = pairs.place(key, steps);
    binary_digits(pairs.len())
}

// So many binary digits are enough for the number.
#[tactic(auto, using(std::proofs::lemmas::Grind::pow_more))]
fn binary_digits(number: usize) -> usize
    ensures { number < 2 ^ result }
{
    if number == 0 {
        return 0;
    }
    number.ilog2() as usize + 1
}
