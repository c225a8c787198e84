//! A number of each key, by which most keys are told apart without a look at them.
ghost use Rattle.std.specs.Prelude.{◌≡◌, ◌+◌, ◌^◌, ◌<◌, chars};
ghost use Rattle.defs_tree.specs.Tree.{string};
ghost use Rattle.yaml_tree.specs.Digests.{digest, text_digest};
ghost use Rattle.yaml_tree.specs.View.{view};

use crate::yaml::Yaml;

// Above 256, so that each byte of a text counts, and close to it, so that keys whose last bytes rise mostly have
// digests that rise.
const BASE: u64 = 257;

fn digest_of_bytes(bytes: &[u8]) -> u64
    ensures number { result ≡ text_digest bytes.now }
    ensures next { result + 1 < 2 ^ 64 }
{
    let mut number: u64 = 0;
    for byte in bytes {
        number = number.wrapping_mul(BASE).wrapping_add(u64::from(*byte));
    }
    number.min(u64::MAX - 1)
}

/// The digest of the `String` with that text.
pub(crate) fn digest_of_text(text: &str) -> u64
    ensures digest { result ≡ digest (string (chars text.now)) }
    ensures next { result + 1 < 2 ^ 64 }
{
    digest_of_bytes(text.as_bytes())
}

/// The digest of a key: of a text it is made from all its bytes, of an `Integer` it is the absolute value.
pub(crate) fn digest(key: &Yaml) -> u64
    ensures digest { result ≡ digest (view key.now) }
    ensures next { result + 1 < 2 ^ 64 }
{
    match key {
        Yaml::Real(text) | Yaml::String(text) => digest_of_bytes(text.as_str().as_bytes()),
        Yaml::Integer(number) => number.unsigned_abs(),
        _ => 0,
    }
}
