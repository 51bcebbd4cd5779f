//! Bodies and parts of bodies inside one another, as a stack of what is open.

ghost use Rattle.std.specs.Prelude.{◌≡◌, ◌≤◌, ◌<◌, ◌+◌, ◌-◌, [], ◌∷◌, ◌++◌, length, IfOk, OnOk};
ghost use Rattle.xdg_classes.specs.Bodies.{body};
ghost use Rattle.xdg_check.specs.Checked.{named_bodies};
ghost use Rattle.xdg_lexicon.specs.Denotes.{Denotes, IsRanked};
ghost use Rattle.xdg_lexicon.specs.Frames.{Enters, Leaves, open_in};
ghost use Rattle.xdg_lexicon.specs.Partial.{ArePartial};
ghost use Rattle.xdg_lexicon.specs.Right.{IsRightUnder};
ghost use Rattle.xdg_lexicon.specs.Weights.{heavy, sized, weigh};

use crate::conjunction::join_all;
use crate::entries::{Partial, read_partial, say_nothing};
use crate::using::follow;
use std::alloc::Global;
use std::mem;
use xdg_ast::{Expr, ExprKind};
use xdg_base::{List, OutOfMemory};
use xdg_check::Checked;
use xdg_classes::args_of;
use xdg_terms::Bindings;

/// Where a body stands.
#[derive(Drop)]
pub(crate) struct Scope {
    /// What its parameters are bound to.
    pub(crate) bindings: Bindings,
    /// Among how many first ones in the order of the classes those are that it uses.
    pub(crate) depth: usize,
}

/// What is open: a part of it is denoted first.
#[derive(Drop)]
pub(crate) enum Frame<'a> {
    /// A disjunction, the place of the member that is denoted, and what the members before it denote, one after the other.
    Listing(&'a [Expr], usize, Vec<Partial>),
    /// A conjunction, the place of the member that is denoted, and the joins of what the members after it denote.
    Joining(&'a [Expr], usize, Vec<Partial>),
    /// A use of a class, whose body is denoted, and the scope in which it stands.
    Using(Scope),
}

/// A body that is denoted part by part.
#[derive(Drop)]
pub(crate) struct Walk<'a> {
    /// The body.
    pub(crate) whole: &'a ExprKind,
    /// Where the part stands that is denoted.
    pub(crate) scope: Scope,
    /// What is open, each inside the one before it.
    pub(crate) frames: Vec<Frame<'a>>,
}

/// The list of one partial entry.
fn one_partial(alloc: Global, partial: Partial) -> Result<Vec<Partial>, OutOfMemory>
    ensures { IfOk result (λ made. made.items ≡ partial ∷ []) }
{
    let mut made = Vec::new(alloc);
    made.push(partial)?;
    Ok(made)
}

/// Opens a frame inside those that are open.
fn add<'a>(frames: &mut Vec<Frame<'a>>, frame: Frame<'a>) -> Result<(), OutOfMemory>
    ensures { OnOk result (frames.new.items ≡ frames.old.items ++ frame.entry ∷ []) }
{
    frames.push(frame)?;
    Ok(())
}

impl<'a> Walk<'a> {
    /// Goes into a part, and there into the part that is denoted first, until one has no parts. Gives what that one denotes.
    fn enter(
        &mut self,
        alloc: Global,
        checked: &'a Checked,
        part: &'a ExprKind,
    ) -> Result<Vec<Partial>, OutOfMemory>
        requires enters { Enters checked.now (body self.old.whole.now) (open_in self.old) self.old.scope (body part.now) }
        ensures leaves { IfOk result (λ made. Leaves checked.now (body self.old.whole.now) (open_in self.new) self.new.scope made.items) }
        ensures same { IfOk result (λ _. body self.new.whole.now ≡ body self.old.whole.now) }
        ensures less { IfOk result (λ _. heavy checked.now (open_in self.new) self.new.scope.depth
            < heavy checked.now (open_in self.old) self.old.scope.depth + weigh (sized checked.now self.old.scope.depth) (body part.now)) }
    {
        let dims = checked.types().dims();
        let mut kind = part;
        'down: loop {
            match kind {
                ExprKind::Or(members) => {
                    let members = members.as_slice();
                    if members.is_empty() {
                        return Ok(Vec::new(alloc));
                    }
                    let none = Vec::new(alloc);
                    add(&mut self.frames, Frame::Listing(members, 0, none))?;
                    kind = &members[0].kind;
                }
                ExprKind::And(members) => {
                    let members = members.as_slice();
                    let nothing = one_partial(alloc, say_nothing(alloc, dims)?)?;
                    if members.is_empty() {
                        return Ok(nothing);
                    }
                    let last = members.len() - 1;
                    add(&mut self.frames, Frame::Joining(members, last, nothing))?;
                    kind = &members[last].kind;
                }
                ExprKind::Dim(dim, pairs) => {
                    let name = dim.text.as_str();
                    let bindings = &self.scope.bindings;
                    let said = read_partial(alloc, dims, name, pairs.as_slice(), bindings)?;
                    return Ok(one_partial(alloc, said)?);
                }
                ExprKind::Use(name, args) => {
                    let args = args_of(args);
                    let bindings = &self.scope.bindings;
                    let used = follow(alloc, checked, name, args, bindings, self.scope.depth)?;
                    kind = used.body;
                    let outside = mem::replace(&mut self.scope, used.scope);
                    add(&mut self.frames, Frame::Using(outside))?;
                }
            }
        }
    }

    /// Leaves a member of a disjunction, which denotes what was made.
    fn list(
        &mut self,
        alloc: Global,
        checked: &'a Checked,
        members: &'a [Expr],
        place: usize,
        mut listed: Vec<Partial>,
        mut made: Vec<Partial>,
    ) -> Result<Vec<Partial>, OutOfMemory>
        requires leaves { Leaves checked.now (body self.old.whole.now) (Frame.Listing members place listed ∷ open_in self.old) self.old.scope made.items }
        ensures leaves { IfOk result (λ next. Leaves checked.now (body self.old.whole.now) (open_in self.new) self.new.scope next.items) }
        ensures same { IfOk result (λ _. body self.new.whole.now ≡ body self.old.whole.now) }
        ensures less { IfOk result (λ _. heavy checked.now (open_in self.new) self.new.scope.depth
            < heavy checked.now (Frame.Listing members.entry place listed ∷ open_in self.old) self.old.scope.depth) }
    {
        listed.append(&mut made)?;
        let next = place + 1;
        if next == members.len() {
            return Ok(listed);
        }
        add(&mut self.frames, Frame::Listing(members, next, listed))?;
        self.enter(alloc, checked, &members[next].kind)
    }

    /// Leaves a member of a conjunction, which denotes what was made.
    fn join(
        &mut self,
        alloc: Global,
        checked: &'a Checked,
        members: &'a [Expr],
        place: usize,
        joined: Vec<Partial>,
        made: Vec<Partial>,
    ) -> Result<Vec<Partial>, OutOfMemory>
        requires leaves { Leaves checked.now (body self.old.whole.now) (Frame.Joining members place joined ∷ open_in self.old) self.old.scope made.items }
        ensures leaves { IfOk result (λ next. Leaves checked.now (body self.old.whole.now) (open_in self.new) self.new.scope next.items) }
        ensures same { IfOk result (λ _. body self.new.whole.now ≡ body self.old.whole.now) }
        ensures less { IfOk result (λ _. heavy checked.now (open_in self.new) self.new.scope.depth
            < heavy checked.now (Frame.Joining members.entry place joined ∷ open_in self.old) self.old.scope.depth) }
    {
        let dims = checked.types().dims();
        let both = join_all(alloc, dims, made, joined)?;
        if place == 0 {
            return Ok(both);
        }
        let next = place - 1;
        add(&mut self.frames, Frame::Joining(members, next, both))?;
        self.enter(alloc, checked, &members[next].kind)
    }

    /// Leaves a part, which denotes what was made, for what is open around it. Gives what that denotes, or where a further
    /// member of it is denoted first, what the first part in that member denotes that has no parts.
    fn leave(
        &mut self,
        alloc: Global,
        checked: &'a Checked,
        made: Vec<Partial>,
    ) -> Result<Vec<Partial>, OutOfMemory>
        requires leaves { Leaves checked.now (body self.old.whole.now) (open_in self.old) self.old.scope made.items }
        ensures leaves { IfOk result (λ next. Leaves checked.now (body self.old.whole.now) (open_in self.new) self.new.scope next.items) }
        ensures same { IfOk result (λ _. body self.new.whole.now ≡ body self.old.whole.now) }
        ensures less { IfOk result (λ _. heavy checked.now (open_in self.new) self.new.scope.depth
            ≤ heavy checked.now (open_in self.old) self.old.scope.depth - 1) }
    {
        let Some(frame) = self.frames.pop() else {
            return Ok(made);
        };
        match frame {
            Frame::Listing(members, place, listed) => {
                self.list(alloc, checked, members, place, listed, made)
            }
            Frame::Joining(members, place, joined) => {
                self.join(alloc, checked, members, place, joined, made)
            }
            Frame::Using(outside) => {
                self.scope = outside;
                Ok(made)
            }
        }
    }
}

/// The partial entries that a body denotes in which no parameter stands, if the classes that it uses are among so many first
/// ones in the order of the classes. Bodies and parts of bodies may stand inside one another as deep as there is memory.
pub(crate) fn denote(
    alloc: Global,
    checked: &Checked,
    whole: &ExprKind,
    depth: usize,
) -> Result<Vec<Partial>, OutOfMemory>
    requires within { depth ≤ length checked.now.order }
    requires ranked { IsRanked checked.now depth (body whole.now) }
    requires right { IsRightUnder checked.now.types checked.now.classes [] (body whole.now) }
    ensures denotes { IfOk result (λ made. Denotes checked.now.types.dims (named_bodies checked.now.classes) [] (body whole.now) made.items) }
    ensures partial { IfOk result (λ made. ArePartial checked.now.types.dims made.items) }
{
    let bindings = List::new(alloc);
    let mut walk = Walk {
        whole,
        scope: Scope { bindings, depth },
        frames: Vec::new(alloc),
    };
    let mut made = walk.enter(alloc, checked, whole)?;
    'walk: while !walk.frames.is_empty() {
        made = walk.leave(alloc, checked, made)?;
    }
    Ok(made)
}
