use std::alloc::AllocError;
use std::test::Fail;
use yaml_rust2::Yaml;
use yaml_rust2::yaml::{Hash, Steps, entries};

#[test]
fn a_hash_is_built_and_changed(rt: HostRuntime) -> Result<(), Fail> {
    let alloc = rt.alloc();
    let host = Yaml::from_str(alloc, "host")?;
    let port = Yaml::from_str(alloc, "port")?;
    let mut settings = Hash::new(alloc);
    settings
        .insert(port.clone(alloc)?, Yaml::Integer(80))
        .map_err(|_| AllocError)?;
    settings
        .insert(host.clone(alloc)?, Yaml::Null)
        .map_err(|_| AllocError)?;
    assert_eq!(rt; settings.get(&port), Some(&Yaml::Integer(80)));
    assert_eq!(rt; settings.place(&host, &mut Steps::new()), Some(1));
    if let Some(value) = settings.get_mut(&port) {
        *value = Yaml::Integer(8080); // in its place: `port` stays the first pair
    }
    assert_eq!(rt; settings.back(), Some((&host, &Yaml::Null)));
    let old = settings
        .insert(port.clone(alloc)?, Yaml::Integer(81))
        .map_err(|_| AllocError)?;
    assert_eq!(rt; old, Some(Yaml::Integer(8080)));
    assert_eq!(rt; settings.back(), Some((&port, &Yaml::Integer(81)))); // `insert` puts the pair last
    assert_eq!(rt; settings.remove(&host), Some(Yaml::Null));
    assert!(rt; settings.len() == 1 && !settings.is_empty());
    assert!(rt; settings.clone(alloc)? == settings);
    Ok(())
}

#[test]
fn pairs_come_in_order(rt: HostRuntime) -> Result<(), Fail> {
    let alloc = rt.alloc();
    let mut settings = Hash::new(alloc);
    settings
        .insert(Yaml::from_str(alloc, "b")?, Yaml::Integer(1))
        .map_err(|_| AllocError)?;
    settings
        .insert(Yaml::from_str(alloc, "a")?, Yaml::Integer(2))
        .map_err(|_| AllocError)?;
    let mut names = String::new(alloc);
    for (key, _) in settings.iter() {
        names.push_str(key.as_str().unwrap_or("?"))?;
    }
    assert_eq!(rt; names.as_str(), "ba");
    for (_, value) in settings {
        assert!(rt; value.into_i64().is_some());
    }
    Ok(())
}

// An iterator has a name, so a struct can keep it.
#[derive(Drop)]
struct Rest<'a> {
    pairs: entries::Iter<'a>,
}

#[test]
fn an_iterator_is_kept(rt: HostRuntime) -> Result<(), Fail> {
    let settings = Hash::new(rt.alloc());
    let mut rest = Rest {
        pairs: settings.iter(),
    };
    assert!(rt; rest.pairs.next().is_none());
    Ok(())
}
