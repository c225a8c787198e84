use super::{number, port, word};
use std::test::Fail;
use yaml_rust2::YamlLoader;

const SETTINGS: &str = "---\nhost: example.org\nport: 8080\n";

#[test]
fn settings_are_read_by_key(rt: HostRuntime) -> Result<(), Fail> {
    let alloc = rt.alloc();
    let documents = YamlLoader::load_from_str(alloc, SETTINGS)?;
    let settings = documents.first().ok_or("no document")?;
    assert!(rt; word(settings, "host") == Some("example.org"));
    assert_eq!(rt; number(settings, "port"), Some(8080));
    assert_eq!(rt; port(alloc, SETTINGS)?, Some(8080));
    Ok(())
}
