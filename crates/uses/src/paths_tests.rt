use Step::{Index, Key};
use std::alloc::Global;
use std::process::Abort;
use std::test::Fail;
use test_rows::Report;
use yaml_loader::marked::{Marked, load_marked};
use yaml_paths::{Step, at, marked, read, read_list};
use yaml_rust2::{Yaml, YamlLoader};

const TEXT: &str =
    "server:\n  port: 80\n  host: é\n  tls: true\n  ports: [80, 443]\n  names:\n  - a\n  - b\n  flags: [true, no]\n";

fn document(alloc: Global) -> Result<Yaml, Fail> {
    let mut documents = YamlLoader::load_from_str(alloc, TEXT)?;
    Ok(documents.pop().unwrap_or(Yaml::BadValue))
}

const PORT: &[Step<'static>] = &[Key("server"), Key("port")];

const HOST: &[Step<'static>] = &[Key("server"), Key("host")];

const TLS: &[Step<'static>] = &[Key("server"), Key("tls")];

const PORTS: &[Step<'static>] = &[Key("server"), Key("ports")];

const SECOND: &[Step<'static>] = &[Key("server"), Key("ports"), Index(1)];

const NAMES: &[Step<'static>] = &[Key("server"), Key("names")];

const FLAGS: &[Step<'static>] = &[Key("server"), Key("flags")];

const THIRD: &[Step<'static>] = &[Key("server"), Key("ports"), Index(2), Key("x")];

#[test]
fn values_are_read_with_their_types(rt: HostRuntime) -> Result<(), Fail> {
    let alloc = rt.alloc();
    let tree = document(alloc)?;
    let Ok(port) = read::<i64>(&tree, PORT) else {
        return Err(Fail::from("no port"));
    };
    assert_eq!(rt; port, 80);
    let Ok(second) = read::<i64>(&tree, SECOND) else {
        return Err(Fail::from("no second port"));
    };
    assert_eq!(rt; second, 443);
    let Ok(tls) = read::<bool>(&tree, TLS) else {
        return Err(Fail::from("no tls"));
    };
    assert!(rt; tls);
    let Ok(host) = read::<&str>(&tree, HOST) else {
        return Err(Fail::from("no host"));
    };
    assert_eq!(rt; host, "é");
    assert!(rt; at(&tree, THIRD).is_none());
    Ok(())
}

#[test]
fn lists_are_read_with_their_types(rt: HostRuntime) -> Result<(), Fail> {
    let alloc = rt.alloc();
    let tree = document(alloc)?;
    let Ok(ports) = read_list::<i64>(alloc, &tree, PORTS) else {
        return Err(Fail::from("no ports"));
    };
    assert_eq!(rt; format!(in alloc; "{ports:?}")?.as_str(), "[80, 443]");
    let Ok(names) = read_list::<&str>(alloc, &tree, NAMES) else {
        return Err(Fail::from("no names"));
    };
    assert_eq!(rt; format!(in alloc; "{names:?}")?.as_str(), "[\"a\", \"b\"]");
    Ok(())
}

const BELOW_HOST: &[Step<'static>] = &[Key("server"), Key("host"), Key("x"), Index(0)];

const BELOW_PORTS: &[Step<'static>] = &[Key("server"), Key("ports"), Key("x")];

const BELOW_SERVER: &[Step<'static>] = &[Key("server"), Index(0)];

// What stands there, its path, and what is said of a number there.
type Row = (&'static str, &'static [Step<'static>], &'static str);

const NUMBERS: [Row; 6] = [
    (
        "a string",
        HOST,
        "line 3, column 9: $[\"server\"][\"host\"]: a string, where an integer is wanted",
    ),
    (
        "no such item",
        THIRD,
        "line 5, column 10: $[\"server\"][\"ports\"][2]: missing",
    ),
    (
        "an array",
        PORTS,
        "line 5, column 10: $[\"server\"][\"ports\"]: an array, where an integer is wanted",
    ),
    (
        "a string on the way",
        BELOW_HOST,
        "line 3, column 9: $[\"server\"][\"host\"]: a string, where a hash is wanted",
    ),
    (
        "an array on the way",
        BELOW_PORTS,
        "line 5, column 10: $[\"server\"][\"ports\"]: an array, where a hash is wanted",
    ),
    (
        "a hash on the way",
        BELOW_SERVER,
        "line 2, column 7: $[\"server\"]: a hash, where an array is wanted",
    ),
];

// What is said of a number there.
fn said(alloc: Global, root: Marked<'_>, path: &[Step<'static>]) -> Result<String, Fail> {
    match marked::read::<i64>(root, path) {
        Ok(_) => Err(Fail::from("a number")),
        Err(error) => Ok(format!(in alloc; "{error}")?),
    }
}

// Of each node is said what its row says. All rows that fail are told.
fn rows_hold(rt: &(impl Abort + AllocGlobal), root: Marked<'_>, rows: &[Row]) -> Result<(), Fail> {
    let mut report = Report::new(rt.alloc());
    for (name, path, want) in rows {
        let found = said(rt.alloc(), root, path)?;
        report.compare(name, "read", found.as_str(), want)?;
    }
    assert!(rt; report.is_empty(), "{report}");
    Ok(())
}

#[test]
fn errors_point_into_the_text(rt: HostRuntime) -> Result<(), Fail> {
    let alloc = rt.alloc();
    let documents = load_marked(alloc, TEXT)?;
    let root = documents.first().ok_or("no document")?;
    rows_hold(&rt, root, &NUMBERS)
}

#[test]
fn an_item_of_another_kind_is_told(rt: HostRuntime) -> Result<(), Fail> {
    let alloc = rt.alloc();
    let documents = load_marked(alloc, TEXT)?;
    let root = documents.first().ok_or("no document")?;
    let Err(error) = marked::read_list::<bool>(alloc, root, FLAGS) else {
        return Err(Fail::from("flags"));
    };
    let want =
        "line 9, column 17: $[\"server\"][\"flags\"][1]: a string, where a boolean is wanted";
    assert_eq!(rt; format!(in alloc; "{error}")?.as_str(), want);
    Ok(())
}

#[test]
fn a_number_has_its_position(rt: HostRuntime) -> Result<(), Fail> {
    let alloc = rt.alloc();
    let documents = load_marked(alloc, TEXT)?;
    let root = documents.first().ok_or("no document")?;
    let port = marked::at(root, PORT).ok_or("no port")?;
    assert_eq!(rt; port.marker().line(), 2);
    let Ok(number) = marked::read::<i64>(root, PORT) else {
        return Err(Fail::from("no number"));
    };
    assert_eq!(rt; number, 80);
    Ok(())
}

#[test]
fn a_value_of_another_kind_is_told(rt: HostRuntime) -> Result<(), Fail> {
    let alloc = rt.alloc();
    let documents = load_marked(alloc, "server:\n  port: none\n")?;
    let root = documents.first().ok_or("no document")?;
    let Err(error) = marked::read::<i64>(root, PORT) else {
        return Err(Fail::from("a number"));
    };
    let want = "line 2, column 9: $[\"server\"][\"port\"]: a string, where an integer is wanted";
    assert_eq!(rt; format!(in alloc; "{error}")?.as_str(), want);
    Ok(())
}
