use std::test::Fail;
use yaml_loader::documents::take_document;
use yaml_rust2::ScanError;
use yaml_rust2::parser::{Event, EventReceiver, Parser};

#[test]
fn events_are_pulled(rt: HostRuntime) -> Result<(), Fail> {
    let alloc = rt.alloc();
    let mut parser = Parser::new_from_str(alloc, "a: [1, two]");
    let mut scalars: u64 = 0;
    for _ in 0..u64::MAX {
        match parser.next_token()? {
            (Event::Scalar(_, _, _, _), _) => scalars = scalars.saturating_add(1),
            (Event::StreamEnd, _) => break,
            _ => {}
        }
    }
    assert_eq!(rt; scalars, 3);
    Ok(())
}

#[test]
fn events_are_peeked(rt: HostRuntime) -> Result<(), Fail> {
    let alloc = rt.alloc();
    let mut parser = Parser::new(alloc, "a".chars());
    assert_eq!(rt; parser.peek()?.0, Event::StreamStart);
    parser.look()?; // the same in two calls
    assert!(rt; parser.waiting().is_some());
    let (event, position) = parser.next_token()?;
    assert_eq!(rt; event, Event::StreamStart);
    assert_eq!(rt; (position.line(), position.col()), (1, 0));
    Ok(())
}

#[derive(Drop)]
struct Scalars {
    count: u64,
}

impl EventReceiver for Scalars {
    fn on_event(&mut self, event: Event) -> Result<(), ScanError> {
        if let Event::Scalar(_, _, _, _) = event {
            self.count = self.count.saturating_add(1);
        }
        Ok(())
    }
}

#[test]
fn events_of_one_document_are_taken(rt: HostRuntime) -> Result<(), Fail> {
    let mut scalars = Scalars { count: 0 };
    let mut parser = Parser::new_from_str(rt.alloc(), "[a, b]\n--- c\n");
    assert!(rt; take_document(&mut parser, &mut scalars).is_ok());
    assert_eq!(rt; scalars.count, 2);
    assert!(rt; take_document(&mut parser, &mut scalars).is_ok());
    assert_eq!(rt; scalars.count, 3);
    assert!(rt; take_document(&mut parser, &mut scalars).is_ok()); // the stream's end
    assert_eq!(rt; scalars.count, 3);
    Ok(())
}

#[test]
fn events_are_pushed(rt: HostRuntime) -> Result<(), Fail> {
    let alloc = rt.alloc();
    let mut scalars = Scalars { count: 0 }; // an `EventReceiver`
    Parser::new_from_str(alloc, "a: [1, two]").load(&mut scalars, true)?;
    assert_eq!(rt; scalars.count, 3);
    Ok(())
}
