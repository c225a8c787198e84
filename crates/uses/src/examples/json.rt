use std::test::Fail;
use yaml_json::write_json;
use yaml_rust2::YamlLoader;

#[test]
fn a_tree_is_written_as_json(rt: HostRuntime) -> Result<(), Fail> {
    let alloc = rt.alloc();
    let documents = YamlLoader::load_from_str(alloc, "{name: x, ports: [80, 443], ratio: 2.50}")?;
    let document = documents.first().ok_or("no document")?;
    let mut text = String::new(alloc);
    write_json(alloc, document, &mut text)?;
    assert_eq!(rt;
        text.as_str(),
        r#"{"name":"x","ports":[80,443],"ratio":2.50}"#
    );
    Ok(())
}
