use std::test::Fail;
use yaml_rust2::scanner::{Scanner, TScalarStyle, Token, TokenType};

#[test]
fn tokens_are_handed_out(rt: HostRuntime) -> Result<(), Fail> {
    let alloc = rt.alloc();
    let mut plain: u64 = 0;
    let mut scanner = Scanner::new(alloc, "[a, 'b']".chars());
    for _ in 0..u64::MAX {
        match scanner.next_token()? {
            Some(Token(_, TokenType::Scalar(TScalarStyle::Plain, _))) => {
                plain = plain.saturating_add(1);
            }
            Some(_) => {}
            None => break,
        }
    }
    assert_eq!(rt; plain, 1);
    assert!(rt; scanner.stream_started() && scanner.stream_ended());
    Ok(())
}

#[test]
fn tokens_are_iterated(rt: HostRuntime) -> Result<(), Fail> {
    let alloc = rt.alloc();
    let mut scanner = Scanner::new(alloc, "- 'a".chars());
    let mut count: u64 = 0;
    for _ in &mut scanner {
        count = count.saturating_add(1);
    }
    let fault = scanner.get_error(); // the iterator has ended, for one of two reasons
    assert!(rt; fault.is_some() && count > 0);
    Ok(())
}

#[test]
fn tokens_are_fetched(rt: HostRuntime) -> Result<(), Fail> {
    let alloc = rt.alloc();
    let mut scanner = Scanner::new(alloc, "[a]".chars());
    scanner.fetch_next_token()?; // at least one
    scanner.fetch_more_tokens()?; // until the next one can be handed out
    assert_eq!(rt; scanner.mark().line(), 1);
    Ok(())
}
