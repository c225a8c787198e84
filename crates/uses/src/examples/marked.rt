use std::test::Fail;
use yaml_loader::marked::load_marked;

#[test]
fn nodes_have_positions(rt: HostRuntime) -> Result<(), Fail> {
    let alloc = rt.alloc();
    let documents = load_marked(alloc, "host: a\nport: none\n")?;
    let document = documents.first().ok_or("no document")?;
    let port = document.get_key("port").ok_or("no port")?;
    assert_eq!(rt; port.as_i64(), None);
    assert_eq!(rt; (port.marker().line(), port.marker().col()), (2, 6));
    Ok(())
}
