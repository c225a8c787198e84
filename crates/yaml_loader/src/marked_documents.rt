//! Documents with positions.
ghost use Rattle.std.specs.Prelude.{◌≡◌, length, slice_get, option_map};
ghost use Rattle.yaml_tree.specs.View.{items_view};
ghost use Rattle.yaml_loader.specs.Table.{AllHaveMarks, AllHaveMarks-prop};

use crate::mark::Mark;
use crate::marked_node::Marked;
use yaml_tree::Yaml;

/// The documents of a text, with the positions of all nodes. Made by [`load_marked`](crate::marked::load_marked).
#[derive(Drop)]
pub struct MarkedDocuments {
    pub(crate) documents: Vec<Yaml>,
    // The marks of all nodes that are parts of others.
    pub(crate) table: Vec<Mark>,
    // The marks of the documents' roots.
    pub(crate) roots: Vec<Mark>,
    ghost fits: { AllHaveMarks table.items (items_view documents.items) roots.items } by { AllHaveMarks-prop table.items (items_view documents.items) roots.items },
}

impl MarkedDocuments {
    ghost use Rattle.yaml_loader.specs.MarkedDocuments.{trees_of, marks_of_all};
    ghost use Rattle.yaml_loader.specs.MarkedNode.{tree_of, marks_of};

    /// How many documents there are.
    pub fn len(&self) -> usize
        ensures { result ≡ length (trees_of self.now) }
    {
        self.documents.len()
    }

    /// The root of a document, counted from 0.
    pub fn get(&self, document: usize) -> Option<Marked<'_>>
        ensures trees { option_map tree_of result ≡ slice_get (trees_of self.now) document }
        ensures marks { option_map marks_of result ≡ slice_get (marks_of_all self.now) document }
    {
        let tree = self.documents.get(document)?;
        let mark = self.roots.get(document)?;
        Some(Marked {
            tree,
            table: self.table.as_slice(),
            mark,
        })
    }

    /// The root of the first document.
    pub fn first(&self) -> Option<Marked<'_>>
        ensures trees { option_map tree_of result ≡ slice_get (trees_of self.now) 0 }
        ensures marks { option_map marks_of result ≡ slice_get (marks_of_all self.now) 0 }
    {
        self.get(0)
    }

    /// The documents without positions.
    pub fn documents(&self) -> &[Yaml]
        ensures { items_view result.now ≡ trees_of self.now }
    {
        self.documents.as_slice()
    }

    /// The documents, without positions.
    pub fn into_documents(self) -> Vec<Yaml>
        ensures { items_view result.items ≡ trees_of self }
    {
        let MarkedDocuments {
            documents,
            table: _,
            roots: _,
        } = self;
        documents
    }
}
