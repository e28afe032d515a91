//! Terms of one table made in another, with other terms in place of their inputs.
//!
//! The nodes below the term are walked in rising order. Beside each stands its image, the node of its term with the
//! inputs replaced, so that no term is walked twice, and none by recursion.
ghost use Rattle.std.specs.Prelude.{◌≡◌, ◌<◌, ◌≤◌, List, None, length, map, take, All, Contains, IfOk};
ghost use Rattle.bv_terms.specs.declared.op.TermId.{TermId};
ghost use Rattle.bv_terms.specs.declared.value.Value.{Value};
ghost use Rattle.bv_terms.specs.Term.{Apply, value};
ghost use Rattle.bv_terms.specs.WellSorted.{sort_of, InputsFit};
ghost use Rattle.bv_terms.specs.Table.{operands, terms_of, term_at, make_refusal, Extends, IsTable};
ghost use Rattle.bv_terms.specs.Subterm.{IsTopological};
ghost use Rattle.bv_terms.specs.Memory.{Thing, thing};
ghost use Rattle.bv_terms.specs.Replaced.{replaced, ReplacementsFit};
ghost use Rattle.bv_terms.specs.Graft.{image_in, AreImages, AreGraftable, AreRising, IsReady};

use crate::node::MOST_ARGS;
use crate::op::{Op, TermId};
use crate::terms::Terms;
use std::alloc::{AllocError, Global};

impl Terms {
    /// The node of a term of another table with its inputs replaced: input `k` by the term of `inputs[k]`, which is of
    /// the input's sort. It costs the nodes of the term's subterms and no others of that table.
    ///
    /// An `Err` is out of memory; nodes may have been added to this table then, and the earlier ones stay.
    pub fn graft(
        &mut self,
        alloc: Global,
        from: &Terms,
        at: TermId,
        inputs: &[TermId],
    ) -> Result<TermId, AllocError>
        requires pointer { from.now.pointer ≡ self.old.pointer }
        requires there { at.0 < length from.now.nodes }
        requires inputs { All (λ a. a.0 < length self.old.nodes) inputs.now }
        requires fit { ReplacementsFit self.old.pointer (map (term_at self.old) inputs.now) (term_at from.now at) }
        ensures term { IfOk result
            (λ id. term_at self.new id ≡ replaced (map (term_at self.old) inputs.now) (term_at from.now at)) }
        ensures within { IfOk result (λ id. id.0 < length self.new.nodes) }
        ensures extends { Extends self.old self.new }
        ensures table { IsTable self.new }

        // What callers use of it.
        ensures longer { length self.old.nodes ≤ length self.new.nodes }
        ensures kept { (a : TermId) → a.0 < length self.old.nodes → term_at self.new a ≡ term_at self.old a }

        // What it means.
        ensures sort { IfOk result
            (λ id. sort_of self.new.pointer (term_at self.new id) ≡ sort_of self.old.pointer (term_at from.now at)) }
        ensures value { IfOk result (λ id. (values : List Value) → value values (term_at self.new id)
            ≡ value (map (value values) (map (term_at self.old) inputs.now)) (term_at from.now at)) }
        ensures thing { IfOk result (λ id. (things : List Thing) → thing self.new.pointer things (term_at self.new id)
            ≡ thing self.old.pointer (map (thing self.old.pointer things) (map (term_at self.old) inputs.now))
            (term_at from.now at)) }
        ensures inputs { IfOk result (λ id. (values : List Value)
            → All (λ a. InputsFit values (term_at self.old a)) inputs.now → InputsFit values (term_at self.new id)) }
    {
        // What is ensured of the numbers of nodes says that both are tables.
        let _ = (self.len(), from.len());
        let nodes = from.subterms(alloc, &[at])?;
        let images = self.images(alloc, from, &nodes, inputs)?;
        Ok(image_of(&nodes, &images, at))
    }

    /// The images of nodes that rise, each after its arguments.
    fn images(
        &mut self,
        alloc: Global,
        from: &Terms,
        nodes: &[TermId],
        inputs: &[TermId],
    ) -> Result<Vec<TermId>, AllocError>
        requires graftable { AreGraftable self.old from.now inputs.now }
        requires rising { AreRising nodes.now }
        requires order { IsTopological from.now nodes.now }
        requires fit { All
            (λ a. ReplacementsFit self.old.pointer (map (term_at self.old) inputs.now) (term_at from.now a)) nodes.now }
        ensures images { IfOk result
            (λ images. AreImages self.new from.now (map (term_at self.old) inputs.now) nodes.now images.items) }
        ensures extends { Extends self.old self.new }
        ensures table { IsTable self.new }
    {
        let mut images = Vec::new(alloc);
        for at in nodes {
            let image = self.image(from, *at, inputs, &nodes[..images.len()], &images)?;
            images.push(image)?;
        }
        Ok(images)
    }

    /// The image of a node, where those of its arguments stand beside `nodes`.
    fn image(
        &mut self,
        from: &Terms,
        at: TermId,
        inputs: &[TermId],
        nodes: &[TermId],
        images: &[TermId],
    ) -> Result<TermId, AllocError>
        requires graftable { AreGraftable self.old from.now inputs.now }
        requires rising { AreRising nodes.now }
        requires images { AreImages self.old from.now (map (term_at self.old) inputs.now) nodes.now images.now }
        requires ready { IsReady self.old from.now inputs.now nodes.now at }
        ensures term { IfOk result
            (λ id. term_at self.new id ≡ replaced (map (term_at self.old) inputs.now) (term_at from.now at)) }
        ensures within { IfOk result (λ id. id.0 < length self.new.nodes) }
        ensures extends { Extends self.old self.new }
        ensures table { IsTable self.new }
    {
        let (op, args) = from.node(at);
        if let Op::Input { number, .. } = *op {
            return Ok(inputs[number as usize]);
        }
        let moved = images_of(nodes, images, args);
        self.make_sorted(*op, &moved[..args.len()])
    }

    /// The node of an operation that may stand over these nodes.
    fn make_sorted(&mut self, op: Op, args: &[TermId]) -> Result<TermId, AllocError>
        requires args { All (λ a. a.0 < length self.old.nodes) args.now }
        requires sorted { make_refusal self.old op args.now ≡ None }
        ensures term { IfOk result (λ id. term_at self.new id ≡ Apply op (operands (terms_of self.old) args.now)) }
        ensures within { IfOk result (λ id. id.0 < length self.new.nodes) }
        ensures extends { Extends self.old self.new }
        ensures table { IsTable self.new }
    {
        match self.make(op, args) {
            Ok(id) => Ok(id),
            Err(_) => Err(AllocError),
        }
    }
}

/// The nodes beside these nodes, and node 0 in the places that are left.
fn images_of(nodes: &[TermId], images: &[TermId], args: &[TermId]) -> [TermId; MOST_ARGS]
    requires rising { AreRising nodes.now }
    requires beside { length images.now ≡ length nodes.now }
    requires few { length args.now ≤ MOST_ARGS }
    requires listed { All (Contains nodes.now) args.now }
    ensures { take (length args.now) result ≡ map (image_in nodes.now images.now) args.now }
{
    let mut moved = [TermId(0); MOST_ARGS];
    for (place, arg) in args.iter().enumerate() {
        moved[place] = image_of(nodes, images, *arg);
    }
    moved
}

/// The node beside a node.
fn image_of(nodes: &[TermId], images: &[TermId], at: TermId) -> TermId
    requires rising { AreRising nodes.now }
    requires beside { length images.now ≡ length nodes.now }
    requires listed { Contains nodes.now at }
    ensures { result ≡ image_in nodes.now images.now at }
{
    let place = nodes.binary_search(&at).unwrap();
    images[place]
}
