//! How texts begin and end.
ghost use Rattle.std.specs.Prelude.{◌≡◌, chars, nat_eq, IsTrue};
ghost use Rattle.std.specs.List.{ends_with};
ghost use Rattle.defs_tree.specs.Quoting.{begins_with};
ghost use Rattle.yaml_emitter.specs.At.{is_low};

#[tactic(auto, using(crate::proofs::EndLemmas::begins_by))]
pub(crate) fn begins_with(text: &str, beginning: &str) -> bool
    requires { IsTrue (is_low beginning.now) }
    ensures { result ≡ begins_with beginning.now (chars text.now) }
{
    text.starts_with(beginning)
}

#[tactic(auto, using(crate::proofs::EndLemmas::ends_by))]
pub(crate) fn ends_with(text: &str, end: &str) -> bool
    requires { IsTrue (is_low end.now) }
    ensures { result ≡ ends_with nat_eq (chars text.now) end.now }
{
    text.ends_with(end)
}
