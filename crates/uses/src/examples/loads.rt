use std::test::Fail;
use yaml_rust2::parser::{Event, MarkedEventReceiver, Parser};
use yaml_rust2::scanner::Marker;
use yaml_rust2::yaml::{LoadError, YAMLDecodingTrap, YamlDecoder};
use yaml_rust2::{ScanError, Yaml, YamlLoader};

#[test]
fn a_text_is_loaded(rt: HostRuntime) -> Result<(), Fail> {
    let alloc = rt.alloc();
    let documents = YamlLoader::load_from_str(alloc, "a: [1, two]")?;
    let list = documents.first().and_then(|document| document.get_key("a"));
    let item = list.and_then(|list| list.get_index(0));
    assert_eq!(rt; item, Some(&Yaml::Integer(1)));
    Ok(())
}

#[test]
fn characters_are_loaded(rt: HostRuntime) -> Result<(), Fail> {
    let alloc = rt.alloc();
    let documents = YamlLoader::load_from_iter(alloc, "- a\n---\n- b\n".chars())?;
    assert_eq!(rt; documents.len(), 2);
    Ok(())
}

#[test]
fn a_parser_is_loaded(rt: HostRuntime) -> Result<(), Fail> {
    let alloc = rt.alloc();
    let text = "%TAG !e! tag:e.org,2000:\n---\n!e!a b\n---\n!e!a c\n";
    let mut parser = Parser::new_from_str(alloc, text).keep_tags(true);
    let documents = YamlLoader::load_from_parser(alloc, &mut parser)?;
    assert_eq!(rt; documents.len(), 2);
    Ok(())
}

#[derive(Drop)]
struct Counted {
    loader: YamlLoader,
    events: u64,
}

impl MarkedEventReceiver for Counted {
    fn on_event(&mut self, event: Event, mark: Marker) -> Result<(), ScanError> {
        self.events = self.events.saturating_add(1);
        self.loader.on_event(event, mark)
    }
}

#[test]
fn a_loader_is_wrapped(rt: HostRuntime) -> Result<(), Fail> {
    let alloc = rt.alloc();
    // `Counted` hands each event to its loader.
    let mut counted = Counted {
        loader: YamlLoader::default(alloc),
        events: 0,
    };
    Parser::new_from_str(alloc, "[a, b]").load(&mut counted, true)?;
    assert_eq!(rt; counted.events, 8);
    assert_eq!(rt; counted.loader.documents().len(), 1);
    let documents = counted.loader.into_documents()?;
    assert_eq!(rt; documents.len(), 1);
    Ok(())
}

#[test]
fn bytes_are_loaded(rt: HostRuntime) -> Result<(), Fail> {
    let alloc = rt.alloc();
    let bytes = b"\xFF\xFEa\0:\0 \01\0"; // UTF-16, little-endian: `a: 1`
    let mut decoder = YamlDecoder::read(alloc, bytes.as_slice());
    decoder.encoding_trap(YAMLDecodingTrap::Replace);
    match decoder.decode() {
        Ok(documents) => assert_eq!(rt; documents.len(), 1),
        Err(LoadError::IO(error)) => println!(rt; "cannot be read: {error}")?,
        Err(LoadError::Scan(fault)) => println!(rt; "no YAML: {fault}")?,
        Err(LoadError::Decode(message)) => println!(rt; "no text: {message}")?,
    }
    Ok(())
}
