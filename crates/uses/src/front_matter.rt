//! Front matter: a page begins with a line `---`, settings and a further line `---`. It is split there, and the settings are
//! loaded, from the library's public contracts alone.

ghost use Rattle.std.specs.Prelude.{◌≡◌, IfOk, IfSome, IfNone, chars, true, false};
ghost use Rattle.yaml_rust2.specs.View.{items_view};
ghost use Rattle.uses.specs.FrontMatter.{Opens, IsCutAs, IsUncut, IsSplitAs, IsWhole};

use std::alloc::Global;
use yaml_rust2::{ScanError, Yaml, YamlLoader};

#[cfg(test)]
mod tests;

/// A page that begins with front matter.
#[derive(Debug, Drop)]
pub struct Page<'a> {
    /// The settings, as documents.
    pub front: Vec<Yaml>,
    /// What stands after them.
    pub rest: &'a str,
}

/// Splits a page into its front matter and the rest: the first line is `---`, and the first further line `---` ends the front
/// matter. Each of the two ends in LF or CR LF. `None` if the page does not begin so, or has no further such line. An `Err`
/// is that of the load, and its lines are those of the page.
pub fn split_page<'a>(alloc: Global, text: &'a str) -> Result<Option<Page<'a>>, ScanError>
    ensures split { IfOk result (λ found. IfSome found (λ p. IsSplitAs (chars text.now) (items_view p.front.items) (chars p.rest.now))) }
    ensures whole { IfOk result (λ found. IfNone found (IsWhole (chars text.now))) }
{
    if !opens(text) {
        return Ok(None);
    }
    match cut(text) {
        Some((front, rest)) => {
            let front = YamlLoader::load_from_str(alloc, front)?;
            Ok(Some(Page { front, rest }))
        }
        None => Ok(None),
    }
}

// Whether the first line is `---`.
fn opens(page: &str) -> bool
    ensures yes { result ≡ true → Opens (chars page.now) }
    ensures no { result ≡ false → Opens (chars page.now) → ⊥ }
{
    if page.starts_with("---\n") {
        return true;
    }
    if page.starts_with("---\r\n") {
        return true;
    }
    false
}

// What stands before the first further line `---`, and what stands after it.
fn cut<'a>(page: &'a str) -> Option<(&'a str, &'a str)>
    ensures cut { IfSome result (λ p. IsCutAs (chars page.now) (chars p.0.now) (chars p.1.now)) }
    ensures uncut { IfNone result (IsUncut (chars page.now)) }
{
    match (page.split_once("\n---\n"), page.split_once("\n---\r\n")) {
        (Some(lf), Some(cr_lf)) => {
            if lf.0.len() <= cr_lf.0.len() {
                Some(lf)
            } else {
                Some(cr_lf)
            }
        }
        (Some(lf), None) => Some(lf),
        (None, Some(cr_lf)) => Some(cr_lf),
        (None, None) => None,
    }
}
