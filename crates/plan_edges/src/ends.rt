ghost use Rattle.std.specs.Prelude.{◌≡◌, ◌++◌, ◌∷◌, [], OnOk, IfSome, IfNone};

use cedr_base::OutOfMemory;
use cedr_edge::{EdgeIn, EdgeOut};
use std::alloc::Global;
use std::marker::Model;

/// The ends that take of the edges of one node, in the order of its ports.
#[derive(Drop)]
pub struct Takers {
    ends: Vec<EdgeIn>,
}

impl Model for Takers {
    ghost use Rattle.std.specs.Prelude.{List};
    ghost use Rattle.cedr_edge.specs.Ends.{InEnd};

    ghost Value = { List InEnd };

    ghost view = { λ t. t.ends.items };
}

/// The ends that put of the edges of one node, in the order of the edges.
#[derive(Drop)]
pub struct Putters {
    ends: Vec<EdgeOut>,
}

impl Model for Putters {
    ghost use Rattle.std.specs.Prelude.{List};
    ghost use Rattle.cedr_edge.specs.Ends.{OutEnd};

    ghost Value = { List OutEnd };

    ghost view = { λ p. p.ends.items };
}

impl Takers {
    pub fn from_vec(ends: Vec<EdgeIn>) -> Takers
        ensures { result ≡ ends.items }
    {
        Takers { ends }
    }

    pub fn into_vec(self) -> Vec<EdgeIn>
        ensures { result.items ≡ self }
    {
        let Takers { ends } = self;
        ends
    }

    /// Takes the first end out.
    pub(crate) fn take_first(&mut self) -> Option<EdgeIn>
        ensures some { IfSome result (λ end. self.old ≡ end ∷ self.new) }
        ensures none { IfNone result (self.old ≡ []) }
    {
        take_first(&mut self.ends)
    }
}

impl Putters {
    pub fn from_vec(ends: Vec<EdgeOut>) -> Putters
        ensures { result ≡ ends.items }
    {
        Putters { ends }
    }

    pub fn into_vec(self) -> Vec<EdgeOut>
        ensures { result.items ≡ self }
    {
        let Putters { ends } = self;
        ends
    }

    /// One end more, after the others.
    pub(crate) fn push(&mut self, end: EdgeOut) -> Result<(), OutOfMemory>
        ensures { OnOk result (self.new ≡ self.old ++ end ∷ []) }
    {
        self.ends.push(end)?;
        Ok(())
    }

    /// Takes the first end out.
    pub(crate) fn take_first(&mut self) -> Option<EdgeOut>
        ensures some { IfSome result (λ end. self.old ≡ end ∷ self.new) }
        ensures none { IfNone result (self.old ≡ []) }
    {
        take_first(&mut self.ends)
    }
}

/// Takes the first element out, where there is one. O(n): a node has few ends.
fn take_first<X>(list: &mut Vec<X>) -> Option<X>
    ensures some { IfSome result (λ x. list.old.items ≡ x ∷ list.new.items) }
    ensures none { IfNone result ((list.old.items ≡ []) × (list.new.items ≡ [])) }
{
    if list.is_empty() {
        None
    } else {
        Some(list.remove(0))
    }
}
