ghost use Rattle.std.specs.Prelude.{◌≡◌, [], false, length};

use crate::watcher::Watcher;
use cedr_base::{Change, OutOfMemory};
use cedr_history::Reader;
use std::alloc::Global;

/// A watcher that writes nothing: it only counts the changes.
#[derive(Drop)]
pub struct Quiet {
    count: usize,
    /// What its looks take, which is nothing.
    taken: Vec<Change>,
    /// A look lacked memory.
    lacked: bool,
}

impl Quiet {
    /// It has seen nothing.
    pub fn new(alloc: Global) -> Quiet
        ensures stands { ⟦<Quiet as Watcher>⟧.stands tt result tt [] }
        ensures found { ⟦<Quiet as Watcher>⟧.lacked result ≡ false }
    {
        Quiet {
            count: 0,
            taken: Vec::new(alloc),
            lacked: false,
        }
    }
}

impl Watcher for Quiet {
    type Out = ();

    ghost stands = { λ _ w _ list. w.count ≡ length list };

    ghost lacked = { λ w. w.lacked };

    fn look(&mut self, reader: &mut Reader, _out: &mut ()) -> Result<bool, OutOfMemory> {
        match reader.read(self.count, 0, &mut self.taken) {
            Ok(Some(seen)) => {
                self.count = seen.len;
                Ok(true)
            }
            Ok(None) => Ok(false),
            Err(OutOfMemory) => {
                self.lacked = true;
                Err(OutOfMemory)
            }
        }
    }
}
