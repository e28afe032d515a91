//! What is read of a text, with its accessors. Items are numbered in the order of their first bytes,
//! so the members of a list have greater numbers than the list.

ghost use Rattle.std.specs.Prelude.{◌≡◌, ℕ, ◌<◌, ◌≤◌, ◌↔◌, List, Some, length, IsTrue, IfSome, map, option_map};
ghost use Rattle.std.specs.List.{All};
ghost use Rattle.sexp_read.specs.Tree.{from_of, to_of, word_of, members_of};
ghost use Rattle.sexp_read.specs.Forest.{IsReading, text_at, atom_at, children_at, head_at, tree_at};

use collections::Seq;

/// A word or a list of a text, with its span: it takes the bytes from `from` up to `to`, without `to`.
#[derive(Debug, Drop)]
pub struct Item {
    /// The place of the first byte, which is the `(` of a list.
    pub from: usize,
    /// The place after the last byte, which is the `)` of a list.
    pub to: usize,
    /// Whether it is a word or a list.
    pub body: Body,
}

/// What an item is.
#[derive(Debug, Drop)]
pub enum Body {
    /// A word: its bytes are those of the span.
    Atom,
    /// A list, with the numbers of its members, in order.
    List { children: Seq<usize> },
}

/// All words and lists of a text, nested ones too.
#[derive(Debug, Drop)]
pub struct Forest {
    /// In order of their first bytes. An item's number is its place here.
    pub items: Seq<Item>,
    /// The numbers of the items that stand in no list, in order.
    pub outermost: Seq<usize>,
}

impl Forest {
    /// The numbers of the items that stand in no list, in order.
    pub fn top(&self) -> &[usize]
        ensures { result.now ≡ self.now.outermost }
    {
        self.outermost.as_slice()
    }

    /// The bytes of an item's span: of a list, those from its `(` to its `)`.
    pub fn text<'a>(&self, bytes: &'a [u8], item: usize) -> &'a [u8]
        requires reading { IsReading bytes.now self.now }
        requires item_in { item < length self.now.items }
        ensures { text_at bytes.now self.now.items item ≡ Some result.now }
    {
        let found = &self.items.as_slice()[item];
        let from = found.from;
        let to = found.to;
        &bytes[from..to]
    }

    /// The bytes of an atom, or `None` for a list.
    pub fn atom<'a>(&self, bytes: &'a [u8], item: usize) -> Option<&'a [u8]>
        requires reading { IsReading bytes.now self.now }
        requires item_in { item < length self.now.items }
        ensures value { option_map (λ text. text.now) result ≡ atom_at bytes.now self.now.items item }
        ensures word { option_map (λ text. text.now) result ≡ word_of (tree_at bytes.now self.now.items item) }
    {
        match &self.items.as_slice()[item].body {
            Body::Atom => Some(self.text(bytes, item)),
            Body::List { .. } => None,
        }
    }

    /// The numbers of a list's members, in order, or `None` for an atom.
    pub fn children(&self, item: usize) -> Option<&[usize]>
        requires { item < length self.now.items }
        ensures members { option_map (λ children. children.now) result ≡ children_at self.now.items item }
        // In the reading of a text they stand for the members of its tree.
        ensures trees { (bytes : List ℕ) → IsReading bytes self.now →
            option_map (λ children. map (tree_at bytes self.now.items) children.now) result
            ≡ members_of (tree_at bytes self.now.items item) }
        // There they come after the list.
        ensures later { (bytes : List ℕ) → IsReading bytes self.now →
            IfSome result (λ children. All (λ child. (item < child) × (child < length self.now.items)) children.now) }
    {
        match &self.items.as_slice()[item].body {
            Body::Atom => None,
            Body::List { children } => Some(children.as_slice()),
        }
    }

    /// The span of an item: the place of its first byte, and the place after its last.
    pub fn span(&self, item: usize) -> (usize, usize)
        requires { item < length self.now.items }
        ensures { (bytes : List ℕ) → IsReading bytes self.now →
            (result.0 ≡ from_of (tree_at bytes self.now.items item))
            × (result.1 ≡ to_of (tree_at bytes self.now.items item)) }
    {
        let found = &self.items.as_slice()[item];
        (found.from, found.to)
    }

    /// Whether an item is a list whose first member is the atom with these bytes.
    pub fn is_headed_by(&self, bytes: &[u8], item: usize, word: &[u8]) -> bool
        requires reading { IsReading bytes.now self.now }
        requires item_in { item < length self.now.items }
        ensures { IsTrue result ↔ (head_at bytes.now self.now.items item ≡ Some word.now) }
    {
        let Some(children) = self.children(item) else {
            return false;
        };
        match children.first() {
            Some(head) => self.atom(bytes, *head) == Some(word),
            None => false,
        }
    }
}
