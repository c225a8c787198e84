//! Settings from three places are laid over each other, dumped, and loaded again.

ghost use Rattle.std.specs.Prelude.{◌≡◌, [], ◌∷◌, IfOk, IfErr};
ghost use Rattle.overlay.specs.Overlay.{overlay};
ghost use Rattle.uses.specs.declared.round_trip.NotBack.TheVariants.{OutOfMemory};
ghost use Rattle.yaml_rust2.specs.View.{view, items_view};
ghost use Rattle.yaml_rust2.specs.Writable.{IsWritable};

use crate::round_trip::{NotBack, round_trip};
use overlay::overlay;
use std::alloc::{AllocError, Global};
use yaml_rust2::Yaml;

#[cfg(test)]
mod tests;

/// The defaults, with the settings of a file laid over them, and then the settings that were asked for. If each of
/// the three can be written, the result can be.
pub fn settle(alloc: Global, defaults: &Yaml, file: &Yaml, asked: &Yaml) -> Result<Yaml, AllocError>
    ensures tree { IfOk result (λ y. view y ≡ overlay (overlay (view defaults.now) (view file.now)) (view asked.now)) }
    ensures writable { IfOk result (λ y. IsWritable (view defaults.now) → IsWritable (view file.now) → IsWritable (view asked.now) → IsWritable (view y)) }
{
    let base = overlay(alloc, defaults, file)?;
    overlay(alloc, &base, asked)
}

/// Lays the three over each other, dumps the result and loads it. If each of the three can be written, the result is
/// one document, the settings, or memory was refused.
pub fn settle_and_load(
    alloc: Global,
    defaults: &Yaml,
    file: &Yaml,
    asked: &Yaml,
) -> Result<Vec<Yaml>, NotBack>
    ensures same { IfOk result (λ documents. IsWritable (view defaults.now) → IsWritable (view file.now) → IsWritable (view asked.now)
        → items_view documents.items ≡ overlay (overlay (view defaults.now) (view file.now)) (view asked.now) ∷ []) }
    ensures refused { IfErr result (λ e. IsWritable (view defaults.now) → IsWritable (view file.now) → IsWritable (view asked.now) → e ≡ OutOfMemory) }
{
    match settle(alloc, defaults, file, asked) {
        Ok(settings) => round_trip(alloc, &settings, true, false),
        Err(AllocError) => Err(NotBack::OutOfMemory),
    }
}
