//! The nodes of a YAML tree.
use crate::array::Array;
use crate::hash::Hash;

/// A node of a YAML tree.
///
/// # Examples
///
/// Looked up:
///
/// ```
/// let documents = YamlLoader::load_from_str(alloc, "web: [80, 443]")?;
/// let root = documents.first().ok_or("no document")?;
/// let ports = root.get_key("web").ok_or("no service of this name")?;
/// assert!(rt; root.is_hash() && ports.is_array());
/// assert_eq!(rt; root.as_hash().map(Hash::len), Some(1));
/// assert_eq!(rt; ports.get_index(1), Some(&Yaml::Integer(443)));
/// assert_eq!(rt; ports.get_index(2), None);
/// assert!(rt; root.has_key("web") && !ports.has_index(2));
/// for port in ports.as_vec().ok_or("no list")?.iter() {
///     assert!(rt; port.as_i64().is_some());
/// }
/// ```
///
/// Made and asked:
///
/// ```
/// let port = Yaml::from_str(alloc, "80")?;
/// let name = Yaml::from_string(String::from_str(alloc, "web")?);
/// assert_eq!(rt; port.as_i64(), Some(80));
/// assert_eq!(rt; port.as_str(), None);
/// assert_eq!(rt; name.as_str(), Some("web"));
/// assert_eq!(rt; Yaml::Boolean(true).as_bool(), Some(true));
/// assert!(rt; Yaml::Null.is_null() && Yaml::BadValue.is_badvalue());
/// assert!(rt; name.clone(alloc)? == name);
/// assert!(rt; *name.borrowed_or(&port) == name);
/// assert!(rt; Yaml::Null.or(port) == Yaml::Integer(80));
/// ```
///
/// Changed in place:
///
/// ```
/// let mut documents = YamlLoader::load_from_str(alloc, "web: [80, 443]")?;
/// let mut root = documents.pop().ok_or("no document")?;
/// let web = Yaml::String(String::from_str(alloc, "web")?);
/// if let Some(ports) = root.as_mut_hash().and_then(|pairs| pairs.get_mut(&web)) {
///     if let Some(items) = ports.as_mut_vec() {
///         items.push(Yaml::Integer(8080)).map_err(|_| AllocError)?;
///     }
/// }
/// if root.has_key("web") {
///     let ports = root.key_mut("web");
///     if ports.has_index(0) {
///         *ports.place_mut(0) = Yaml::Integer(81);
///     }
/// }
/// let text = format!(in alloc; "{root:?}")?;
/// assert_eq!(rt;
///     text.as_str(),
///     r#"Hash({String("web"): Array([Integer(81), Integer(443), Integer(8080)])})"#
/// );
/// ```
///
/// Taken apart:
///
/// ```
/// let name = Yaml::from_str(alloc, "web")?;
/// let text: Option<String> = name.into_string();
/// assert!(rt; text.is_some());
/// assert_eq!(rt; Yaml::Integer(80).into_i64(), Some(80));
/// assert_eq!(rt; Yaml::Boolean(true).into_bool(), Some(true));
/// assert!(rt; Yaml::Null.into_hash().is_none() && Yaml::Null.into_vec().is_none());
/// ```
#[cycle(yaml)]
#[derive(Drop)]
pub enum Yaml {
    /// A real number, as its text.
    Real(String),
    /// An integer of 64 bits.
    Integer(i64),
    /// A text.
    String(String),
    /// `true` or `false`.
    Boolean(bool),
    /// A list of nodes.
    Array(Array),
    /// Pairs of a key and a value, in the order of insertion; no two keys are equal.
    Hash(Hash),
    /// The number of an anchor that stands for a node elsewhere.
    Alias(usize),
    /// The null value, as `~`.
    Null,
    /// Stands for a missing node: an alias inside its own node, a plain scalar that does not fit its tag, or the root of
    /// a document that was pushed without one.
    BadValue,
}
