use crate::book::Front;
use std::marker::Model;

/// A note of the published list, from its writer to the reader. Contracts see which history it is of, the list, and
/// whether it is the writer's last note.
#[derive(Drop)]
pub struct Note {
    pub(crate) front: Front,
    pub(crate) last: bool,
}

impl Model for Note {
    ghost use Rattle.cedr_history.specs.Ends.{NoteSeen, list_of};

    ghost Value = { NoteSeen };

    ghost view = { λ n. record { history = n.front.book; list = list_of n.front; last = n.last } };
}
