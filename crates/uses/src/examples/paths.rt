use std::test::Fail;
use yaml_loader::marked::load_marked;
use yaml_paths::{Step, marked, read_or};
use yaml_rust2::YamlLoader;

const PORT: &[Step<'static>] = &[Step::Key("server"), Step::Key("port")];

#[test]
fn an_error_points(rt: HostRuntime) -> Result<(), Fail> {
    let alloc = rt.alloc();
    let documents = load_marked(alloc, "server:\n  port: none\n")?;
    let document = documents.first().ok_or("no document")?;
    let Err(error) = marked::read::<i64>(document, PORT) else {
        return Err(Fail::from("a number"));
    };
    let text = format!(in alloc; "{error}")?;
    let wanted = r#"line 2, column 9: $["server"]["port"]: a string, where an integer is wanted"#;
    assert_eq!(rt; text.as_str(), wanted);
    Ok(())
}

#[test]
fn a_default_stands_for_what_is_missing(rt: HostRuntime) -> Result<(), Fail> {
    let alloc = rt.alloc();
    let documents = YamlLoader::load_from_str(alloc, "server:\n  host: a\n")?;
    let settings = documents.first().ok_or("no document")?;
    let Ok(port) = read_or(settings, PORT, 8080) else {
        return Err(Fail::from("another kind"));
    };
    assert_eq!(rt; port, 8080);
    Ok(())
}

#[test]
fn a_default_hides_no_other_kind(rt: HostRuntime) -> Result<(), Fail> {
    let alloc = rt.alloc();
    let documents = load_marked(alloc, "server: oops\n")?;
    let document = documents.first().ok_or("no document")?;
    let Err(error) = marked::read_or(document, PORT, 8080) else {
        return Err(Fail::from("a number"));
    };
    let text = format!(in alloc; "{error}")?;
    let wanted = r#"line 1, column 9: $["server"]: a string, where a hash is wanted"#;
    assert_eq!(rt; text.as_str(), wanted);
    Ok(())
}
