use crate::fetcher::Fetcher;
use std::marker::Model;
use yaml_chars::Characters;

/// Reads characters as tokens (YAML 1.2, chapters 5 to 9). It is an iterator of tokens, which ends at the first
/// fault. [`next_token`](Scanner::next_token) and [`get_error`](Scanner::get_error) give the fault.
///
/// A fault is kept: each later call that scans returns it again.
///
/// # Examples
///
/// ```
/// let mut plain: u64 = 0;
/// let mut scanner = Scanner::new(alloc, "[a, 'b']".chars());
/// for _ in 0..u64::MAX {
///     match scanner.next_token()? {
///         Some(Token(_, TokenType::Scalar(TScalarStyle::Plain, _))) => {
///             plain = plain.saturating_add(1);
///         }
///         Some(_) => {}
///         None => break,
///     }
/// }
/// assert_eq!(rt; plain, 1);
/// assert!(rt; scanner.stream_started() && scanner.stream_ended());
/// ```
///
/// As an iterator:
///
/// ```
/// let mut scanner = Scanner::new(alloc, "- 'a".chars());
/// let mut count: u64 = 0;
/// for _ in &mut scanner {
///     count = count.saturating_add(1);
/// }
/// let fault = scanner.get_error(); // the iterator has ended, for one of two reasons
/// assert!(rt; fault.is_some() && count > 0);
/// ```
#[derive(Drop)]
pub struct Scanner<T: Characters> {
    pub(crate) fetcher: Fetcher<T>,
}

impl<T: Characters> Model for Scanner<T> {
    ghost use Rattle.yaml_scanner.specs.Scanned.{Scan, scan_of};
    ghost use Rattle.yaml_scanner.specs.Follows.{Follows};

    ghost Value = { Scan T };

    ghost view = { λ s. scan_of s.fetcher };

    // What was fetched is a run of the model, whatever the text is.
    ghost invariant = { λ s. Follows s.fetcher };
}
