use std::test::Fail;
use yaml_rust2::emitter::FmtWriter;
use yaml_rust2::{YamlEmitter, YamlLoader};

#[test]
fn a_tree_is_dumped(rt: HostRuntime) -> Result<(), Fail> {
    let alloc = rt.alloc();
    let documents = YamlLoader::load_from_str(alloc, "- [a]\n- \"b\\nc\"")?;
    let document = documents.first().ok_or("no document")?;
    let mut text = String::new(alloc);
    let mut emitter = YamlEmitter::new(&mut text);
    emitter.compact(false);
    emitter.multiline_strings(true);
    assert!(rt; !emitter.is_compact() && emitter.is_multiline_strings());
    emitter.dump(document)?;
    assert_eq!(rt; text.as_str(), "---\n-\n  - a\n- |-\n  b\n  c");
    Ok(())
}

#[test]
fn a_tree_is_dumped_over_another_writer(rt: HostRuntime) -> Result<(), Fail> {
    let alloc = rt.alloc();
    let documents = YamlLoader::load_from_str(alloc, "[a, b]")?;
    let document = documents.first().ok_or("no document")?;
    let mut writer = FmtWriter::new(String::new(alloc)); // any `fmt::Write`
    YamlEmitter::new(&mut writer).dump(document)?;
    let text = writer.into_inner();
    assert_eq!(rt; text.as_str(), "---\n- a\n- b");
    Ok(())
}
