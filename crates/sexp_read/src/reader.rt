//! The one pass over the bytes. Before each byte the reader has built the tokens that ended before it,
//! and knows whether a word or a comment goes on.

ghost use Rattle.std.specs.Prelude.{◌≡◌, ◌≢◌, ℕ, ◌+◌, ◌^◌, ◌<◌, ◌≤◌, ◌⊎◌, List, length, map, OnOk, IfOk, IfErr};
ghost use Rattle.std.specs.Prelude.{IsOkUnless};
ghost use Rattle.sexp_read.specs.Token.{Token, tokens};
ghost use Rattle.sexp_read.specs.Lexical.{AreTokens};
ghost use Rattle.sexp_read.specs.Tree.{Trees, flatten, list_of};
ghost use Rattle.sexp_read.specs.Forest.{IsForest, IsReading, Denotes, tree_at};
ghost use Rattle.sexp_read.specs.Fault.{IsFault, IsButForMemory};
ghost use Rattle.sexp_read.specs.Progress.{HasRead, HasClass, HasBuilt, IsBuilt, ReadsOn, Refuses};

use crate::builder::Builder;
use crate::fault::SexpFault;
use crate::forest::Forest;
use crate::token::{Class, class_of, is_text_byte};
use std::alloc::Global;

/// What the bytes so far leave open beside lists.
#[derive(Clone, Copy, Debug)]
enum Pending {
    Nothing,
    Comment,
    /// A word, with the place of its first byte.
    Word(usize),
}

/// A reader in the midst of a text.
#[derive(Drop)]
struct Reader {
    builder: Builder,
    pending: Pending,
}

impl Reader {
    fn new(alloc: Global) -> Reader
        ensures { (bytes : List ℕ) → HasRead bytes 0 result }
    {
        Reader {
            builder: Builder::new(alloc),
            pending: Pending::Nothing,
        }
    }

    /// Ends a word before a place, where it does not go on.
    fn end_word(&mut self, first: usize, place: usize) -> Result<(), SexpFault>
        requires { self.old.pending ≡ Pending.Word first }
        ensures ok { OnOk result ((bytes : List ℕ) (class : Class) → HasRead bytes place self.old →
            HasClass bytes place class → class ≢ Class.Letter → HasRead bytes place self.new) }
        ensures nothing { OnOk result (self.new.pending ≡ Pending.Nothing) }
        ensures memory { IsOkUnless result SexpFault.NoMemory }
    {
        self.builder.add_word(first, place)?;
        self.pending = Pending::Nothing;
        Ok(())
    }

    /// Reads a byte of a class at a place, where nothing is pending.
    fn step_between(&mut self, alloc: Global, class: Class, place: usize) -> Result<(), SexpFault>
        requires nothing { self.old.pending ≡ Pending.Nothing }
        requires built { IsBuilt self.old.builder }
        requires room { place + 1 < 2 ^ 64 }
        ensures ok { OnOk result (ReadsOn self.old class place self.new) }
        ensures err { IfErr result (Refuses self.old class place) }
    {
        match class {
            Class::Left => return self.builder.open_list(alloc, place),
            Class::Right => return self.builder.close_list(place),
            Class::Semicolon => self.pending = Pending::Comment,
            Class::Letter => self.pending = Pending::Word(place),
            Class::Blank | Class::LineFeed => {}
        }
        Ok(())
    }

    /// Reads a byte of a class at a place, in a word.
    fn step_word(
        &mut self,
        alloc: Global,
        first: usize,
        class: Class,
        place: usize,
    ) -> Result<(), SexpFault>
        requires word { self.old.pending ≡ Pending.Word first }
        requires read { (bytes : List ℕ) × HasRead bytes place self.old × HasClass bytes place class }
        requires room { place + 1 < 2 ^ 64 }
        ensures ok { OnOk result (ReadsOn self.old class place self.new) }
        ensures err { IfErr result (Refuses self.old class place) }
    {
        if let Class::Letter = class {
            return Ok(());
        }
        self.end_word(first, place)?;
        self.step_between(alloc, class, place)
    }

    /// Reads a byte of a class at a place, in a comment.
    fn step_comment(&mut self, class: Class)
        requires { self.old.pending ≡ Pending.Comment }
        ensures { (place : ℕ) → ReadsOn self.old class place self.new }
    {
        if let Class::LineFeed = class {
            self.pending = Pending::Nothing;
        }
    }

    /// Reads the byte at a place.
    fn step(&mut self, alloc: Global, bytes: &[u8], place: usize) -> Result<(), SexpFault>
        requires read { HasRead bytes.now place self.old }
        requires place_in { place < length bytes.now }
        ensures ok { OnOk result (HasRead bytes.now (place + 1) self.new) }
        ensures err { IfErr result (λ fault. (fault ≡ SexpFault.NoMemory) ⊎ IsFault bytes.now fault) }
    {
        let byte = bytes[place];
        if !is_text_byte(byte) {
            return Err(SexpFault::NotText(place));
        }
        let class = class_of(byte);
        match self.pending {
            Pending::Nothing => self.step_between(alloc, class, place),
            Pending::Word(first) => self.step_word(alloc, first, class, place),
            Pending::Comment => {
                self.step_comment(class);
                Ok(())
            }
        }
    }

    /// All that has been built, where the text ends at a place.
    fn into_builder(self, place: usize) -> Result<Builder, SexpFault>
        ensures ok { IfOk result (λ builder. (bytes : List ℕ) → length bytes ≡ place →
            HasRead bytes place self → HasBuilt (tokens bytes) builder) }
        ensures memory { IsOkUnless result SexpFault.NoMemory }
    {
        let Reader {
            mut builder,
            pending,
        } = self;
        match pending {
            Pending::Word(first) => {
                builder.add_word(first, place)?;
                Ok(builder)
            }
            Pending::Nothing | Pending::Comment => Ok(builder),
        }
    }
}

fn read_all(alloc: Global, bytes: &[u8]) -> Result<Forest, SexpFault>
    ensures ok { IfOk result (IsReading bytes.now) }
    ensures err { IfErr result (λ fault. (fault ≡ SexpFault.NoMemory) ⊎ IsFault bytes.now fault) }
{
    let mut reader = Reader::new(alloc);
    for place in 0..bytes.len() {
        reader.step(alloc, bytes, place)?;
    }
    reader.into_builder(bytes.len())?.finish()
}

/// The words and lists of a text, in one pass over its bytes.
///
/// A text is printable ASCII, tabs, line feeds and carriage returns. A `;` begins a comment up to the
/// next line feed or the end, and in a comment parentheses and `;` have no meaning. Outside of comments
/// a word is a longest run of other bytes than blanks, parentheses and `;`, and a list is `(`, words and
/// lists, `)`, nested at most 256 deep.
pub fn read(alloc: Global, bytes: &[u8]) -> Result<Forest, SexpFault>
    // What is read is the text.
    ensures reading { IfOk result (IsReading bytes.now) }
    // Where the bytes are a forest, that forest is read.
    ensures every_reading { (forest : Forest) → IsReading bytes.now forest → IsButForMemory (Ok forest) result }

    // A fault is that of the bytes.
    ensures fault { IfErr result (λ fault. (fault ≡ SexpFault.NoMemory) ⊎ IsFault bytes.now fault) }
    // Where the bytes have a fault, that fault is answered.
    ensures every_fault { (fault : SexpFault) → IsFault bytes.now fault → IsButForMemory (Err fault) result }

    // The tokens by which both are defined are all parentheses and words that stand outside of comments.
    ensures tokens { AreTokens bytes.now (tokens bytes.now) }
{
    read_all(alloc, bytes)
}

/// A text has only one list of tokens, and they spell at most one list of trees, so it has at most one reading.
pub fn one_reading()
    ensures tokens { (bytes : List ℕ) (some others : List Token) →
        AreTokens bytes some → AreTokens bytes others → some ≡ others }
    ensures trees { (bytes : List ℕ) (some others : Trees) →
        tokens bytes ≡ flatten some → tokens bytes ≡ flatten others → some ≡ others }
    ensures forest { (bytes : List ℕ) (some other : Forest) →
        IsReading bytes some → IsReading bytes other → some ≡ other }
{}

/// No text has both a reading and a fault, or two faults.
pub fn one_fault()
    ensures reading { (bytes : List ℕ) (forest : Forest) (fault : SexpFault) →
        IsReading bytes forest → IsFault bytes fault → ⊥ }
    ensures fault { (bytes : List ℕ) (fault other : SexpFault) →
        IsFault bytes fault → IsFault bytes other → fault ≡ other }
{}

/// Each item of a reading stands for a tree, and the outermost items stand for the trees of the text.
pub fn item_trees()
    ensures each { (bytes : List ℕ) (forest : Forest) → IsReading bytes forest →
        (item : ℕ) → item < length forest.items →
        Denotes bytes forest.items item (tree_at bytes forest.items item) }
    ensures outermost { (bytes : List ℕ) (trees : Trees) (forest : Forest) → IsForest bytes trees forest →
        map (tree_at bytes forest.items) forest.outermost ≡ list_of trees }
{}
