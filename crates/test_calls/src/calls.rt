//! Tables of texts, with calls of what reads them.
use std::alloc::Global;
use std::process::Abort;
use std::test::Fail;
use test_rows::Report;

/// A call of what reads a text.
pub(crate) trait Call: Sized {
    /// What these calls answer, one after the other.
    fn answers(alloc: Global, text: &str, calls: &[Self]) -> Result<String, Fail>;
}

/// What it shows, a text, calls of what reads it, and what they answer.
pub(crate) type Row<C> = (&'static str, &'static str, &'static [C], &'static str);

/// Each text's calls answer as its row says. All rows that fail are told.
pub(crate) fn rows_hold<C: Call + 'static>(
    rt: &(impl Abort + AllocGlobal),
    rows: &[Row<C>],
) -> Result<(), Fail> {
    let mut report = Report::new(rt.alloc());
    for (name, text, calls, want) in rows {
        let found = C::answers(rt.alloc(), text, calls)?;
        report.compare(name, "called", found.as_str(), want)?;
    }
    assert!(rt; report.is_empty(), "{report}");
    Ok(())
}
