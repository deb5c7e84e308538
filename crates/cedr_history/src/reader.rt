ghost use Rattle.std.specs.Prelude.{◌≡◌, ◌++◌, Some, None, IsOk, IfOk, OnErr, IfSome, IfNone, MatchBool};
ghost use Rattle.left_right.specs.Sides.{view};
ghost use Rattle.cedr_history.specs.Lists.{Extends};
ghost use Rattle.cedr_history.specs.Ends.{part, list_of, IsAt, IsSeen};
ghost use Rattle.cedr_base.specs.Counters.{raised};

use crate::book::Front;
use crate::note::Note;
use crate::reading::enter;
use crate::rule::Behind;
use crate::seen::Seen;
use cedr_base::{Change, OutOfMemory};
use core::mem::replace;
use std::alloc::Global;
use std::marker::Model;

/// The one reader of a list. Contracts see its history, the list that it has seen or learnt from a note, the list of
/// the last note where it learnt that, and how many of its enters were refused.
#[derive(Drop)]
pub struct Reader {
    alloc: Global,
    /// It is there but while a read goes on.
    behind: Option<Behind>,
    floor: Front,
    last: Option<Front>,
    refused: u64,
}

impl Model for Reader {
    ghost use Rattle.std.specs.Prelude.{◌≡◌, IfSome};
    ghost use Rattle.left_right.specs.Sides.{view as known};
    ghost use Rattle.cedr_history.specs.Ends.{ReaderSeen, list_of, last_list, IsAt};

    ghost Value = { ReaderSeen };

    ghost view = { λ r. record { history = r.floor.book; seen = list_of r.floor; last = last_list r.last; refused = r.refused } };

    ghost invariant = { λ r. IfSome r.behind (λ b. IsAt (known b.place) r.floor.book) × IfSome r.last (λ l. l.book ≡ r.floor.book) };
}

impl Reader {
    pub(crate) fn new(alloc: Global, behind: Behind, floor: Front) -> Reader
        requires { IsAt (view behind.place) floor.book }
        ensures { result ≡ record { history = floor.book; seen = list_of floor; last = None; refused = 0 } }
    {
        Reader {
            alloc,
            behind: Some(behind),
            floor,
            last: None,
            refused: 0,
        }
    }

    /// Enters the list that is published, and appends its changes at the places from `from` on, at most `max` of them.
    /// It waits for nobody. `None` is an enter that was refused, which can be made again; the count of these is raised.
    /// At `OutOfMemory` nothing is appended, and the list may have been seen. With `max` 0 it takes no memory. O(n) in
    /// what it appends.
    pub fn read(
        &mut self,
        from: usize,
        max: usize,
        out: &mut Vec<Change>,
    ) -> Result<Option<Seen>, OutOfMemory>
        ensures same { (self.new.history ≡ self.old.history) × (self.new.last ≡ self.old.last) }
        ensures later { Extends self.old.seen self.new.seen }
        ensures seen { IfOk result (λ o. IfSome o (λ s. IsSeen s self.new.seen × (out.new.items ≡ out.old.items ++ part from max self.new.seen.changes) × (self.new.refused ≡ self.old.refused))) }
        ensures last { IfOk result (λ o. IfSome o (λ s. IfSome self.old.last (λ l. self.new.seen ≡ l))) }
        ensures none { IfOk result (λ o. IfNone o ((self.new ≡ record self.old { refused = raised self.old.refused }) × (out.new.items ≡ out.old.items))) }
        ensures err { OnErr result ((out.new.items ≡ out.old.items) × (self.new.refused ≡ self.old.refused)) }
        ensures small { max ≡ 0 → IsOk result }
    {
        let Some(behind) = self.behind.take() else {
            self.refused = self.refused.saturating_add(1);
            return Ok(None);
        };
        let (behind, found) = enter(self.alloc, behind, &self.floor, &self.last, from, max, out);
        self.behind = Some(behind);
        match found {
            Ok(Some((front, seen))) => {
                self.floor = front;
                Ok(Some(seen))
            }
            Ok(None) => {
                self.refused = self.refused.saturating_add(1);
                Ok(None)
            }
            Err(error) => Err(error),
        }
    }

    /// From now on each list that is read goes on from the note's. After the last note it is the note's list. It takes no
    /// memory.
    pub fn learn(&mut self, note: Note)
        requires { note.history ≡ self.old.history }
        ensures same { (self.new.history ≡ self.old.history) × (self.new.refused ≡ self.old.refused) }
        ensures seen { Extends self.old.seen self.new.seen }
        ensures noted { Extends note.list self.new.seen }
        ensures last { MatchBool note.last (self.new.last ≡ Some note.list) (self.new.last ≡ self.old.last) }
    {
        let Note { front, last } = note;
        self.floor = self.floor.longer(&front);
        if last {
            drop(replace(&mut self.last, Some(front)));
        }
    }
}
