//! Texts, read as trees.
ghost use Rattle.std.specs.Prelude.{◌≡◌, ◌^◌, ◌<◌, [], ◌∷◌, true, false, None, IfOk, OnOk, IfErr, All, chars};
ghost use Rattle.std.specs.Iterator.{IsFinite, size};
ghost use Rattle.defs_event.specs.NoAlias.{HasNoAlias};
ghost use Rattle.yaml_tree.specs.View.{view, items_view};
ghost use Rattle.defs_text.specs.Text.{up_to_nul, has_no_nul};
ghost use Rattle.yaml_chars.specs.WindowView.{HasNoNul, BeginsText};
ghost use Rattle.yaml_chars.specs.Source.{CameFrom};
ghost use Rattle.yaml_parser.specs.Parsed.{parsed};
ghost use Rattle.defs_event.specs.Meaning.{Means};
ghost use Rattle.yaml_parser.specs.Blames.{WantsMemory};
ghost use Rattle.yaml_loader.specs.Loads.{AreLoaded, IsLoadFault};
ghost use Rattle.yaml_loader.specs.Meant.{LoadsOnly, OfMeaning, OfGiven, OfJson, OfBasic, OfLayout, OfQuoted};
ghost use Rattle.yaml_loader.specs.TextLoads.{LoadsText, OfTexts, Answers};

use crate::loader::YamlLoader;
use defs_event::laws::loaded_trees_have_no_alias;
use std::alloc::Global;
use yaml_chars::{Characters, TextInMemory};
use yaml_json::at_once::{position_behind, read_json};
use yaml_parser::Parser;
use yaml_tokens::ScanError;
use yaml_tree::Yaml;

// All documents of the characters that come from a source.
fn load_known<S: Characters>(alloc: Global, source: S) -> Result<Vec<Yaml>, ScanError>
    requires can { S.can_next source }
    requires finite { IsFinite (S.remaining source) }
    requires few { size (S.remaining source) < 2 ^ 63 }
    ensures reads { BeginsText S.next_gives source (λ text. has_no_nul text ≡ true → LoadsText false text result) }
    ensures no_alias { IfOk result (λ documents. All HasNoAlias (items_view documents.items)) }
{
    let mut known = Parser::new(alloc, source);
    YamlLoader::load_from_parser(alloc, &mut known)
}

impl YamlLoader {
    /// Loads all documents of a text, up to its end or its first NUL (YAML 1.2, section 3.1). An empty text has no
    /// document.
    ///
    /// # Example
    ///
    /// ```
    /// let documents = YamlLoader::load_from_str(alloc, "a: [1, two]")?;
    /// let list = documents.first().and_then(|document| document.get_key("a"));
    /// let item = list.and_then(|list| list.get_index(0));
    /// assert_eq!(rt; item, Some(&Yaml::Integer(1)));
    /// ```
    ///
    /// The documents are what the text means by the definitions alone: a text has at most one row of tokens, and means at
    /// most one list of trees (clauses `reads` and `of_row`). A text that means trees loads as them, unless memory is refused
    /// (clause `meant`). So the definitions say of each text whether it loads, and as what.
    ///
    /// # Errors
    ///
    /// The text's first fault, with its position: a text is loaded whole or not at all. A key that comes twice in its
    /// mapping is a fault too, which is returned only if there is no other. It tells the key, as
    /// `String("a"): duplicated key in mapping`, and has the position of the key's second value, for a collection that of
    /// its end. Or memory was refused ([`ScanError::is_out_of_memory`]); then all memory that the load took is freed.
    ///
    /// # What is sure to load
    ///
    /// These texts load as their trees, unless memory is refused:
    ///
    /// - a JSON text (RFC 8259) with TABs only in the indentation of a line, no `\u` escape of a surrogate, no key
    ///   twice in an object, and at most 255 levels;
    /// - `---` and, below it, a tree laid out in lines: block arrays and hashes at any columns, scalars on one line
    ///   or as literal blocks, empty lines and comment lines between the entries, and no key twice in a hash;
    /// - the same with single quotes, folded blocks, JSON arrays and objects on one line, and arrays at the column of
    ///   their key; with a comment after a scalar on its line, or before a break that a block follows; with an anchor
    ///   before a scalar on its line, a literal block, or a block on the next line, and with aliases as values; and
    ///   also without the first `---`. Several of these, each further one after its `---`, load as their trees in order;
    /// - one scalar in single or double quotes, on any number of lines (YAML 1.2, sections 7.3.1 and 7.3.2), followed
    ///   by nothing but line feeds: it loads as a string, also if its text without quotes would be another scalar.
    pub fn load_from_str(alloc: Global, source: &str) -> Result<Vec<Yaml>, ScanError>
        ensures reads { LoadsText false (up_to_nul (chars source.now)) result }
        ensures of_row { IfOk result (λ documents. Means false (up_to_nul (chars source.now)) (items_view documents.items)) }
        ensures no_alias { IfOk result (λ documents. All HasNoAlias (items_view documents.items)) }
        ensures meant { OfMeaning (up_to_nul (chars source.now)) (LoadsOnly result) }
        ensures json { OfJson (chars source.now) (LoadsOnly result) }
        ensures basic { OfBasic (chars source.now) (LoadsOnly result) }
        ensures laid_out { OfLayout (chars source.now) (LoadsOnly result) }
        ensures quoted { OfQuoted (chars source.now) (LoadsOnly result) }
        ensures json_before_nul { OfJson (up_to_nul (chars source.now)) (LoadsOnly result) }
        ensures basic_before_nul { OfBasic (up_to_nul (chars source.now)) (LoadsOnly result) }
        ensures laid_out_before_nul { OfLayout (up_to_nul (chars source.now)) (LoadsOnly result) }
        ensures quoted_before_nul { OfQuoted (up_to_nul (chars source.now)) (LoadsOnly result) }
    {
        load_text(alloc, source)
    }

    /// Loads all documents of the characters that an iterator gives, up to its first `None` or NUL. After that the
    /// iterator is not asked again. Promises are those of [`YamlLoader::load_from_str`], which is faster for a text in
    /// memory.
    ///
    /// Conditions, which a proof must show: the iterator can be asked, comes to an end, and gives fewer than 2^63 characters.
    /// An iterator over a text in memory, such as `text.chars()`, meets them.
    ///
    /// # Example
    ///
    /// ```
    /// let documents = YamlLoader::load_from_iter(alloc, "- a\n---\n- b\n".chars())?;
    /// assert_eq!(rt; documents.len(), 2);
    /// ```
    ///
    /// # Errors
    ///
    /// Those of [`YamlLoader::load_from_str`].
    pub fn load_from_iter<I: Iterator<Item = char> + Drop>(
        alloc: Global,
        source: I,
    ) -> Result<Vec<Yaml>, ScanError>
        requires can { I.can_next source }
        requires finite { IsFinite (I.remaining source) }
        requires few { size (I.remaining source) < 2 ^ 63 }
        // For every iterator: the clauses hold of each text that begins with the characters that it gave, or that is
        // just these if they end with the iterator or a NUL.
        ensures given { BeginsText I.next_gives source (λ text. has_no_nul text ≡ true → Answers text result) }
        ensures reads { OfGiven I.next_gives source (λ text. LoadsText false (up_to_nul text) result) }
        ensures of_row { OfGiven I.next_gives source (λ text. IfOk result (λ documents. Means false (up_to_nul text) (items_view documents.items))) }
        ensures no_alias { IfOk result (λ documents. All HasNoAlias (items_view documents.items)) }
        ensures meant { OfGiven I.next_gives source (λ text. OfMeaning (up_to_nul text) (LoadsOnly result)) }
        ensures json { OfGiven I.next_gives source (λ text. OfJson text (LoadsOnly result)) }
        ensures basic { OfGiven I.next_gives source (λ text. OfBasic text (LoadsOnly result)) }
        ensures laid_out { OfGiven I.next_gives source (λ text. OfLayout text (LoadsOnly result)) }
        ensures quoted { OfGiven I.next_gives source (λ text. OfQuoted text (LoadsOnly result)) }
    {
        let mut parser = Parser::new(alloc, source);
        YamlLoader::load_from_parser(alloc, &mut parser)
    }

    /// Loads all documents from where a parser stands to the end of the stream. An event that was peeked comes first.
    ///
    /// # Example
    ///
    /// ```
    /// let text = "%TAG !e! tag:e.org,2000:\n---\n!e!a b\n---\n!e!a c\n";
    /// let mut parser = Parser::new_from_str(alloc, text).keep_tags(true);
    /// let documents = YamlLoader::load_from_parser(alloc, &mut parser)?;
    /// assert_eq!(rt; documents.len(), 2);
    /// ```
    ///
    /// # Errors
    ///
    /// The parser's fault, which the parser keeps. A key that comes twice in its mapping is returned only if the
    /// parser has no fault. Or memory was refused.
    pub fn load_from_parser<I: Characters>(
        alloc: Global,
        parser: &mut Parser<I>,
    ) -> Result<Vec<Yaml>, ScanError>
        ensures documents { IfOk result (λ documents. AreLoaded (parsed parser.old) (items_view documents.items) (parsed parser.new)) }
        ensures no_alias { IfOk result (λ documents. All HasNoAlias (items_view documents.items)) }
        ensures no_fault { OnOk result ((parsed parser.new).fault ≡ None) }
        ensures fault { IfErr result (λ f. IsLoadFault (parsed parser.old) f (parsed parser.new)) }
        ensures reads { OfTexts (parsed parser.old) (parsed parser.new) (λ text. LoadsText (parsed parser.old).keep_tags text result) }
        ensures start { parser.new.start ≡ parser.old.start }
        ensures came { CameFrom I.next_gives parser.new.start (parsed parser.new).scanner.taken (parsed parser.new).scanner.done }
        ensures no_nul { HasNoNul (parsed parser.new).scanner.taken }
    {
        let mut loader = YamlLoader::default(alloc);
        let outcome = parser.load(&mut loader, true);
        parser.note();
        outcome?;
        loaded_trees_have_no_alias();
        loader.into_documents()
    }
}

// The documents of a text. A JSON text is read at once, each other text by a parser.
fn load_text(alloc: Global, source: &str) -> Result<Vec<Yaml>, ScanError>
    ensures reads { LoadsText false (up_to_nul (chars source.now)) result }
    ensures no_alias { IfOk result (λ documents. All HasNoAlias (items_view documents.items)) }
{
    match read_json(alloc, source) {
        Ok(Some(tree)) => one_document(alloc, tree, source),
        Ok(None) => load_known(alloc, TextInMemory::new(source)),
        Err(refused) => Err(out_of_memory(source, refused.read)),
    }
}

// The tree of a text, which was read to its end.
fn one_document(alloc: Global, tree: Yaml, source: &str) -> Result<Vec<Yaml>, ScanError>
    ensures ok { IfOk result (λ documents. items_view documents.items ≡ view tree ∷ []) }
    ensures err { IfErr result (λ f. WantsMemory f) }
{
    let mut documents = Vec::new(alloc);
    if documents.push(tree).is_err() {
        return Err(out_of_memory(source, source.len()));
    }
    Ok(documents)
}

// Memory was refused to a text of which so many bytes were read. The fault has the position behind them.
#[cold]
#[inline(never)]
#[tactic(auto, using(crate::proofs::AnyText::wants))]
fn out_of_memory(source: &str, read: usize) -> ScanError
    ensures { WantsMemory result }
{
    ScanError::memory(position_behind(source, read))
}
