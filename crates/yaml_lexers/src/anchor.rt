//! Anchors and aliases (YAML 1.2, sections 6.9.2 and 7.1).
ghost use Rattle.std.specs.Prelude.{◌<◌, Ok, Err, OnOk, IfOk, IfErr};
ghost use Rattle.yaml_chars.specs.Class.{is_anchor};
ghost use Rattle.yaml_chars.specs.WindowView.{Reads, HasChar};
ghost use Rattle.defs_text.specs.Text.{string_chars};
ghost use Rattle.model_scanner.specs.Anchor.{anchor_name};
ghost use Rattle.yaml_lexers.specs.Shown.{Lexes, Refuses};

use std::alloc::{AllocError, Global};
use yaml_chars::class::is_anchor;
use yaml_chars::{Characters, TextBuilder, Window};
use yaml_tokens::{Fault, Problem};

/// Reads the name of an anchor or an alias, from the `&` or `*` on.
#[tactic(auto, using(model_scanner::proofs::SpaceLemmas::take_end), unfolding(model_scanner::specs::Anchor::anchor_name))]
pub fn read_anchor_name<T: Characters>(
    alloc: Global,
    window: &mut Window<T>,
) -> Result<String, Fault>
    requires has { HasChar window.old }
    requires ahead { 0 < window.old.ahead }
    ensures ok { IfOk result (λ s. Lexes anchor_name window.old window.new (string_chars s)) }
    ensures err { IfErr result (λ e. Refuses anchor_name window.old window.new e) }
    ensures less { OnOk result (window.new.left < window.old.left) }
{
    let start = window.mark();
    window.skip();
    let mut name = TextBuilder::new(alloc);
    'name: loop {
        let c = window.look_ch();
        if !is_anchor(c) {
            break;
        }
        name.push(c)?;
        window.skip();
    }
    if name.is_empty() {
        return Err(Fault::At(Problem::AnchorName, start));
    }
    Ok(name.into_string())
}
