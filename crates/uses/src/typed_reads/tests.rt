use super::{address, number_at, port, port_or_text};
use std::alloc::Global;
use std::test::Fail;
use yaml_paths::Step;
use yaml_rust2::{Yaml, YamlLoader};

// The one document of a text.
fn tree(alloc: Global, text: &str) -> Result<Yaml, Fail> {
    let mut documents = YamlLoader::load_from_str(alloc, text)?;
    Ok(documents.pop().unwrap_or(Yaml::BadValue))
}

// What is said of the port, once the settings are gone.
fn port_said(alloc: Global, text: &str) -> Result<String, Fail> {
    let settings = tree(alloc, text)?;
    let port = port(&settings);
    drop(settings);
    match port {
        Ok(port) => Ok(format!(in alloc; "{port}")?),
        Err(error) => Ok(format!(in alloc; "{error}")?),
    }
}

#[test]
fn an_error_outlives_the_settings(rt: HostRuntime) -> Result<(), Fail> {
    let alloc = rt.alloc();
    assert_eq!(rt; port_said(alloc, "server: {port: 80}")?.as_str(), "80");
    assert_eq!(rt; port_said(alloc, "log: all")?.as_str(), "8080");
    let wrong = port_said(alloc, "server: oops")?;
    assert_eq!(rt;
        wrong.as_str(),
        "$[\"server\"]: a string, where a hash is wanted"
    );
    Ok(())
}

#[test]
fn a_path_may_come_from_the_caller(rt: HostRuntime) -> Result<(), Fail> {
    let alloc = rt.alloc();
    let ports = tree(alloc, "[80, none]")?;
    let Ok(first) = number_at(&ports, &[Step::Index(0)]) else {
        return Err(Fail::from("no number"));
    };
    assert_eq!(rt; first, Some(80));
    let Ok(third) = number_at(&ports, &[Step::Index(2)]) else {
        return Err(Fail::from("no answer"));
    };
    assert_eq!(rt; third, None);
    let Err(error) = number_at(&ports, &[Step::Index(1)]) else {
        return Err(Fail::from("a number"));
    };
    let text = format!(in alloc; "{error}")?;
    assert_eq!(rt; text.as_str(), "$[1]: a string, where an integer is wanted");
    Ok(())
}

#[test]
fn two_settings_are_read(rt: HostRuntime) -> Result<(), Fail> {
    let alloc = rt.alloc();
    let settings = tree(alloc, "server: {host: example.org}")?;
    let Ok(address) = address(&settings) else {
        return Err(Fail::from("no address"));
    };
    assert_eq!(rt; address, ("example.org", 8080));
    let Ok(port) = port_or_text(alloc, &settings) else {
        return Err(Fail::from("no port"));
    };
    assert_eq!(rt; port, 8080);
    Ok(())
}

#[test]
fn another_kind_is_told(rt: HostRuntime) -> Result<(), Fail> {
    let alloc = rt.alloc();
    let settings = tree(alloc, "server: [80]")?;
    let Err(error) = address(&settings) else {
        return Err(Fail::from("an address"));
    };
    let want = "$[\"server\"]: an array, where a hash is wanted";
    assert_eq!(rt; format!(in alloc; "{error}")?.as_str(), want);
    let Err(error) = port_or_text(alloc, &settings) else {
        return Err(Fail::from("a port"));
    };
    let want = "settings: $[\"server\"]: an array, where a hash is wanted";
    assert_eq!(rt; format!(in alloc; "{error}")?.as_str(), want);
    Ok(())
}
