//! What has been built from the tokens so far: the items, and the lists that are open. After each
//! token they stand for trees of the tokens before it, and at most 256 lists are open.

ghost use Rattle.std.specs.Prelude.{◌≡◌, ℕ, ◌+◌, ◌^◌, ◌<◌, ◌≤◌, ◌⊎◌, List, [], ◌∷◌, ◌++◌, length};
ghost use Rattle.std.specs.Prelude.{OnOk, IfOk, IfErr, IsOkUnless};
ghost use Rattle.sexp_read.specs.Token.{Token, Open, Close, Atom};
ghost use Rattle.sexp_read.specs.Tree.{depth_limit};
ghost use Rattle.sexp_read.specs.Fault.{open_lists};
ghost use Rattle.sexp_read.specs.Progress.{HasBuilt, IsBuilt, AddsMember, Holds, LeavesOpen};

use crate::fault::SexpFault;
use crate::forest::{Body, Forest, Item};
use collections::Seq;
use std::alloc::Global;

/// How many lists may be open at once.
const DEPTH_LIMIT: usize = 256;

/// A list whose end has not come yet: the number of its item, the place of its `(`, and its members so far.
#[derive(Drop)]
pub struct OpenList {
    pub number: usize,
    pub from: usize,
    pub members: Seq<usize>,
}

/// The items of the tokens so far. The item of a list that is open holds its place and no more.
#[derive(Drop)]
pub struct Builder {
    pub items: Vec<Item>,
    /// The innermost last.
    pub unclosed: Vec<OpenList>,
    pub outermost: Seq<usize>,
}

impl Builder {
    pub fn new(alloc: Global) -> Builder
        ensures { HasBuilt [] result }
    {
        Builder {
            items: Vec::new(alloc),
            unclosed: Vec::new(alloc),
            outermost: Seq::new(alloc),
        }
    }

    /// Makes an item a member of the innermost open list, or an outermost one.
    fn add_member(&mut self, number: usize) -> Result<(), SexpFault>
        ensures ok { OnOk result (AddsMember self.old self.new number) }
        ensures memory { IsOkUnless result SexpFault.NoMemory }
    {
        match self.unclosed.len() {
            0 => self.outermost.push(number)?,
            count => self.unclosed[count - 1].members.push(number)?,
        }
        Ok(())
    }

    /// Adds a word with its span.
    pub fn add_word(&mut self, from: usize, to: usize) -> Result<(), SexpFault>
        ensures ok { OnOk result ((tokens : List Token) (word : List ℕ) → from + length word ≡ to →
            HasBuilt tokens self.old → HasBuilt (tokens ++ Atom from word ∷ []) self.new) }
        ensures memory { IsOkUnless result SexpFault.NoMemory }
    {
        let number = self.items.len();
        self.items.push(Item {
            from,
            to,
            body: Body::Atom,
        })?;
        self.add_member(number)
    }

    /// Begins a list at a place.
    pub fn open_list(&mut self, alloc: Global, place: usize) -> Result<(), SexpFault>
        ensures ok { OnOk result ((tokens : List Token) →
            HasBuilt tokens self.old → HasBuilt (tokens ++ Open place ∷ []) self.new) }
        ensures err { IfErr result (λ fault. (fault ≡ SexpFault.NoMemory)
            ⊎ ((fault ≡ SexpFault.Deep place) × ((tokens : List Token) →
            HasBuilt tokens self.old → depth_limit ≤ length (open_lists tokens)))) }
    {
        if self.unclosed.len() >= DEPTH_LIMIT {
            return Err(SexpFault::Deep(place));
        }
        let number = self.items.len();
        self.items.push(Item {
            from: place,
            to: place,
            body: Body::Atom,
        })?;
        self.unclosed.push(OpenList {
            number,
            from: place,
            members: Seq::new(alloc),
        })?;
        Ok(())
    }

    /// Ends the innermost open list by the `)` at a place.
    pub fn close_list(&mut self, place: usize) -> Result<(), SexpFault>
        requires built { IsBuilt self.old }
        requires room { place + 1 < 2 ^ 64 }
        ensures ok { OnOk result ((tokens : List Token) →
            HasBuilt tokens self.old → HasBuilt (tokens ++ Close (place + 1) ∷ []) self.new) }
        ensures err { IfErr result (λ fault. (fault ≡ SexpFault.NoMemory)
            ⊎ ((fault ≡ SexpFault.Stray place) × ((tokens : List Token) →
            HasBuilt tokens self.old → open_lists tokens ≡ []))) }
    {
        let Some(
            OpenList {
                number,
                from,
                members,
            },
        ) = self.unclosed.pop()
        else {
            return Err(SexpFault::Stray(place));
        };
        self.items[number] = Item {
            from,
            to: place + 1,
            body: Body::List { children: members },
        };
        self.add_member(number)
    }

    /// The forest of what was built, or the fault that a list is open.
    pub fn finish(self) -> Result<Forest, SexpFault>
        ensures ok { IfOk result (λ forest. (tokens : List Token) → HasBuilt tokens self → Holds tokens forest) }
        ensures err { IfErr result (λ fault. (tokens : List Token) → HasBuilt tokens self → LeavesOpen tokens fault) }
    {
        let Builder {
            items,
            unclosed,
            outermost,
        } = self;
        match unclosed.first() {
            Some(list) => Err(SexpFault::Unclosed(list.from)),
            None => Ok(Forest {
                items: Seq::from_vec(items),
                outermost,
            }),
        }
    }
}
