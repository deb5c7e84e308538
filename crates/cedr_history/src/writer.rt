//! The writer, and how both ends are made.
ghost use Rattle.std.specs.Prelude.{◌≡◌, drop, ◌<◌, ◌^◌, ◌++◌, ◌∷◌, [], true, false, length, max, ◌≤◌, None, IfOk, OnOk, OnErr};
ghost use Rattle.left_right.specs.Sides.{view};
ghost use Rattle.cedr_base.specs.declared.change.Change.{Change};
ghost use Rattle.cedr_history.specs.declared.close.Close.TheVariants.{Open};
ghost use Rattle.cedr_history.specs.Lists.{nothing, stepped, Extends};
ghost use Rattle.cedr_history.specs.Ends.{IsAt, IsOpening, IsReadyVersion, holding, list_of, whole};
ghost use Rattle.cedr_history.specs.Sights.{SightBegins};
ghost use Rattle.cedr_history.specs.Versions.{IsTied, listing};

use crate::book::{Front, Head, open};
use crate::close::Close;
use crate::note::Note;
use crate::reader::Reader;
use crate::rule::{Ahead, Behind, Learns, Sees, Tells};
use crate::states::Deed;
use crate::step::Step;
use crate::version::Version;
use cedr_base::{Change, OutOfMemory, Time};
use core::mem::replace_with;
use std::alloc::{AllocError, Global};
use std::marker::Model;
use std::sync::{Arc, Wait};

/// The one who adds to a list and publishes it. Contracts see its history, the list that is published, that list with
/// all that is pending, and whether it made its last note.
///
/// It can't be dropped: `end` uses it up.
pub struct Writer {
    alloc: Global,
    inner: Ahead,
    head: Head,
    all: Front,
    concluded: bool,
}

impl Model for Writer {
    ghost use Rattle.std.specs.Prelude.{◌≡◌, fold, drop};
    ghost use Rattle.cedr_history.specs.Rules.{head_of};
    ghost use Rattle.cedr_history.specs.Sights.{SightBegins};
    ghost use Rattle.cedr_history.specs.Versions.{IsTied, listing};
    ghost use Rattle.cedr_history.specs.Ends.{Writing, list_of, holding, done, whole};

    ghost Value = { Writing };

    ghost view = { λ w. record { history = w.all.book; published = listing w.inner.desk.shown.value; all = list_of w.all; concluded = w.concluded } };

    ghost invariant = { λ w. (w.head ≡ head_of w.all.book) × IsTied w.inner.desk.shown.value × SightBegins w.inner.desk.shown.value.front w.all × (fold done (holding w.inner.desk.shown.value) (drop w.inner.behind w.inner.log.items) ≡ whole w.all) };
}

/// How many steps a history has at most. No machine makes as many.
const MOST: u64 = 1 << 60;

impl Writer {
    /// Adds a step to what is pending.
    fn give(&mut self, step: Step) -> Result<(), OutOfMemory>
        ensures ok { OnOk result (self.new ≡ record self.old { all = stepped self.old.all step }) }
        ensures err { OnErr result (self.new ≡ self.old) }
    {
        let mut next = self.all.again();
        if next.len() >= MOST || !next.add(&self.head, &step) {
            return Err(OutOfMemory);
        }
        let front = next.again();
        if self.inner.append(Deed { step, front }).is_err() {
            return Err(OutOfMemory);
        }
        self.all = next;
        Ok(())
    }

    /// Adds a change to what is pending. A change that is refused is dropped, and whatever is added after it may be
    /// refused too. O(1), amortised.
    pub fn append(&mut self, change: Change) -> Result<(), OutOfMemory>
        requires open { self.old.all.close ≡ Open }
        ensures ok { OnOk result (self.new ≡ record self.old { all = record self.old.all { changes = self.old.all.changes ++ change ∷ [] } }) }
        ensures err { OnErr result (self.new ≡ self.old) }
    {
        let shared = Arc::new(self.alloc, change)?;
        self.give(Step::Change(shared))
    }

    /// Raises the mark of what is pending. Where it is refused, whatever is added later may be refused too.
    pub fn mark(&mut self, t: Time) -> Result<(), OutOfMemory>
        requires open { self.old.all.close ≡ Open }
        requires rises { self.old.all.mark ≤ t }
        ensures ok { OnOk result (self.new ≡ record self.old { all = record self.old.all { mark = t } }) }
        ensures err { OnErr result (self.new ≡ self.old) }
    {
        self.give(Step::Mark(t))
    }

    /// Closes what is pending. Where it is refused, whatever is added later may be refused too.
    pub fn close(&mut self, how: Close) -> Result<(), OutOfMemory>
        requires open { self.old.all.close ≡ Open }
        ensures ok { OnOk result (self.new ≡ record self.old { all = record self.old.all { close = how } }) }
        ensures err { OnErr result (self.new ≡ self.old) }
    {
        self.give(Step::Close(how))
    }

    /// Shows all that is pending at once, and answers a note of it. It waits until the reader has left the copy that
    /// isn't shown. Where it is refused, all stays pending, and it may be called again. O(n) in what was added since
    /// the publish before the last one: each copy takes each step once.
    pub fn publish<R: Wait>(&mut self, rt: &R) -> Result<Note, OutOfMemory>
        requires { self.old.concluded ≡ false }
        ensures ok { OnOk result (self.new ≡ record self.old { published = self.old.all }) }
        ensures later { Extends self.old.published self.old.all }
        ensures note { IfOk result (λ n. n ≡ record { history = self.old.history; list = self.old.all; last = false }) }
        ensures err { OnErr result (self.new ≡ self.old) }
    {
        let front = self.all.again();
        goes_on(self.inner.published(), &front);
        let shown = replace_with(
            &mut self.inner,
            rt,
            |inner, rt| -> (Ahead, Result<(), AllocError>)
                requires { IsReadyVersion inner.desk.shown.value (drop inner.behind inner.log.items) front }
                ensures shown { OnOk result.1 ((holding result.0.desk.shown.value ≡ whole front) × (drop result.0.behind result.0.log.items ≡ [])) }
                ensures kept { OnErr result.1 ((result.0.desk.shown.value ≡ inner.desk.shown.value) × (drop result.0.behind result.0.log.items ≡ drop inner.behind inner.log.items)) }
            { show(inner, rt, &front) },
        );
        shown?;
        Ok(Note {
            front: self.all.again(),
            last: false,
        })
    }

    /// Makes the last note, of the published list. It publishes nothing, and takes no memory.
    pub fn last(&mut self) -> Note
        requires { self.old.concluded ≡ false }
        ensures concluded { self.new ≡ record self.old { concluded = true } }
        ensures note { result ≡ record { history = self.old.history; list = self.old.published; last = true } }
    {
        self.concluded = true;
        Note {
            front: self.inner.published().front.again(),
            last: true,
        }
    }

    /// Uses the writer up, and drops what is pending. It waits for the reader, and a read that begins later may be
    /// refused: call it after the last read.
    pub fn end<R: Wait>(self, rt: &R) {
        let Writer {
            alloc: _,
            inner,
            head: _head,
            all: _all,
            concluded: _concluded,
        } = self;
        inner.take(rt);
    }
}

/// The writer and the reader of an empty list, at mark 0 and open. It publishes once, for which nobody is waited for.
pub fn new_history<R: Wait>(alloc: Global, rt: &R) -> Result<(Writer, Reader), OutOfMemory>
    ensures history { IfOk result (λ r. r.1.history ≡ r.0.history) }
    ensures writer { IfOk result (λ r. (r.0.published ≡ nothing) × (r.0.all ≡ nothing) × (r.0.concluded ≡ false)) }
    ensures reader { IfOk result (λ r. (r.1.seen ≡ nothing) × (r.1.last ≡ None) × (r.1.refused ≡ 0)) }
{
    let (head, all) = open();
    let floor = all.again();
    let (inner, behind) = two_ends(alloc, rt, &all)?;
    let writer = Writer {
        alloc,
        inner,
        head,
        all,
        concluded: false,
    };
    Ok((writer, Reader::new(alloc, behind, floor)))
}

/// The two ends of the copies, which know the history.
fn two_ends<R: Wait>(alloc: Global, rt: &R, all: &Front) -> Result<(Ahead, Behind), OutOfMemory>
    requires { all.now.steps ≡ [] }
    ensures writer { IfOk result (λ r. IsOpening r.0.desk.shown.value all.now × (drop r.0.behind r.0.log.items ≡ [])) }
    ensures reader { IfOk result (λ r. IsAt (view r.1.place) all.now.book) }
{
    let first = empty(alloc, all);
    let second = empty(alloc, all);
    let inner: Ahead = left_right::writer::Writer::new(alloc, first, second, 1)?;
    let (mut inner, shown) = inner.publish_as::<Sees, R>(rt);
    if shown.is_err() {
        inner.take(rt);
        return Err(OutOfMemory);
    }
    let Ok(mut behind) = inner.factory().reader() else {
        inner.take(rt);
        return Err(OutOfMemory);
    };
    behind.learn::<Learns>(inner.tell::<Tells>());
    Ok((inner, behind))
}

/// A copy with nothing in it.
fn empty(alloc: Global, all: &Front) -> Version
    requires { all.now.steps ≡ [] }
    ensures { IsOpening result all.now }
{
    Version {
        changes: Vec::new(alloc),
        mark: 0,
        close: Close::Open,
        front: all.again(),
    }
}

/// Shows all that is pending. `all` is the history with it.
fn show<R: Wait>(inner: Ahead, rt: &R, all: &Front) -> (Ahead, Result<(), AllocError>)
    requires { IsReadyVersion inner.desk.shown.value (drop inner.behind inner.log.items) all.now }
    ensures shown { OnOk result.1 ((holding result.0.desk.shown.value ≡ whole all.now) × (drop result.0.behind result.0.log.items ≡ [])) }
    ensures kept { OnErr result.1 ((result.0.desk.shown.value ≡ inner.desk.shown.value) × (drop result.0.behind result.0.log.items ≡ drop inner.behind inner.log.items)) }
{
    inner.publish_as::<Sees, R>(rt)
}

/// The list of a copy goes on in each history that its front begins.
fn goes_on(version: &Version, all: &Front)
    requires { IsTied version.now × SightBegins version.now.front all.now }
    ensures { Extends (listing version.now) (list_of all.now) }
{}
