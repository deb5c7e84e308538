ghost use Rattle.std.specs.Prelude.{◌≡◌, false, List, [], map, Ok};
ghost use Rattle.cedr_base.specs.declared.change.Message.{Message as Sent};
ghost use Rattle.node_laws.specs.Lawful.{is_over};
ghost use Rattle.worker_outlets.specs.Outlets.{AllTotal, AllStaged, bare};
ghost use Rattle.cedr_worker.specs.SourceSteps.{MayPass, Passed};

use crate::stop::SourceStop;
use cedr_base::Message;
use std::alloc::Global;
use worker_outlets::{Last, Outlets};

/// What a step's answer gives is pending on each out edge: its messages, all of them and in order, or the last one where
/// the source stops. Answers why the source stops, if it does. Where memory lacks for them none of them is pending.
pub(crate) fn give_answer(
    alloc: Global,
    outlets: &mut Outlets,
    answer: Result<Vec<Message>, SourceStop>,
) -> Option<SourceStop>
    requires { (given : List Sent) × AllTotal given outlets.old × AllStaged [] outlets.old × (is_over given ≡ false) × MayPass answer given }
    ensures bare { map bare outlets.new ≡ map bare outlets.old }
    ensures given { (given : List Sent) → AllTotal given outlets.old → AllStaged [] outlets.old → Passed answer result given outlets.new }
{
    match answer {
        Ok(messages) => give_messages(alloc, outlets, messages),
        Err(stop) => {
            outlets.close(stop.last());
            Some(stop)
        }
    }
}

/// The same of messages.
fn give_messages(alloc: Global, outlets: &mut Outlets, messages: Vec<Message>) -> Option<SourceStop>
    requires { (given : List Sent) × AllTotal given outlets.old × AllStaged [] outlets.old × (is_over given ≡ false) × MayPass (Ok messages) given }
    ensures bare { map bare outlets.new ≡ map bare outlets.old }
    ensures given { (given : List Sent) → AllTotal given outlets.old → AllStaged [] outlets.old → Passed (Ok messages) result given outlets.new }
{
    let mut piece = messages;
    match outlets.stage_all(alloc, &mut piece) {
        Ok(()) => {
            outlets.commit();
            None
        }
        Err(_) => {
            outlets.close(Last::Broken);
            Some(SourceStop::OutOfMemory)
        }
    }
}
