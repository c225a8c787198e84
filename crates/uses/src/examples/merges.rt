use overlay::merge_keys::merge;
use std::test::Fail;
use yaml_rust2::{Yaml, YamlLoader};

#[test]
fn defaults_are_merged(rt: HostRuntime) -> Result<(), Fail> {
    let alloc = rt.alloc();
    let text = "defaults: &d {host: a, port: 80}\nserver: {<<: *d, port: 8080}\n";
    let documents = YamlLoader::load_from_str(alloc, text)?;
    let settings = merge(alloc, documents.first().ok_or("no document")?)?;
    let server = settings.get_key("server").ok_or("no server")?; // {port: 8080, host: a}
    assert_eq!(rt; server.get_key("port"), Some(&Yaml::Integer(8080)));
    Ok(())
}
