ghost use Rattle.std.specs.Prelude.{◌<◌, IfOk, IfSome};
ghost use Rattle.cedr_io.specs.Counts.{Counts, last_count};
ghost use Rattle.cedr_plan.specs.Rules.{IsPlan};
ghost use Rattle.cedr_keys.specs.Ends.{IsPlanFront, OpenFaults, OpensKeyed};

use crate::outcome::KeysOutcome;
use cedr_io::{Files, OutsideFault, Source};
use cedr_plan::{PLAN_LIMIT, Plan, PlanFault, read_plan};
use std::alloc::Global;

/// The plan that a file describes, or how the call ends without one.
pub(crate) fn open_plan<F: Files>(
    alloc: Global,
    file: &[u8],
    files: &mut F,
) -> Result<Plan, KeysOutcome>
    requires { F.faults files.old < last_count }
    ensures plan { IfOk result IsPlan }
    ensures opened { OpensKeyed result (F.content files.old file.now) }
    ensures faults { OpenFaults result (F.faults files.old) (F.faults files.new) }
{
    let bytes = match read_file(alloc, file, files) {
        Ok(bytes) => bytes,
        Err(OutsideFault::Failed) => return Err(KeysOutcome::Read),
        Err(OutsideFault::OutOfMemory) => return Err(KeysOutcome::OutOfMemory),
    };
    match read_plan(alloc, &bytes) {
        Ok(plan) => Ok(plan),
        Err(PlanFault::Refused { kind, node }) => Err(KeysOutcome::BadPlan(kind, node)),
        Err(PlanFault::OutOfMemory) => Err(KeysOutcome::OutOfMemory),
    }
}

/// The bytes of a file, or its first ones where these pass the limit of a plan.
fn read_file<F: Files>(alloc: Global, name: &[u8], files: &mut F) -> Result<Vec<u8>, OutsideFault>
    requires { F.faults files.old < last_count }
    ensures bytes { IfOk result (λ bytes. IfSome (F.content files.old name.now) (λ all. IsPlanFront all bytes.items)) }
    ensures counted { Counts result (F.faults files.old) (F.faults files.new) }
{
    let mut source = files.find(name)?;
    let bytes = read_front(alloc, &mut source);
    files.give_back(source);
    bytes
}

/// Reads a source to its end, or until the bytes pass the limit of a plan.
fn read_front<S: Source>(alloc: Global, source: &mut S) -> Result<Vec<u8>, OutsideFault>
    ensures bytes { IfOk result (λ bytes. IfSome (S.rest source.old) (λ all. IsPlanFront all bytes.items)) }
    ensures counted { Counts result (S.faults source.old) (S.faults source.new) }
{
    let mut bytes = Vec::new(alloc);
    let mut block = [0u8; 4096];
    while bytes.len() <= PLAN_LIMIT {
        let Ok(count) = source.read(&mut block) else {
            return Err(OutsideFault::Failed);
        };
        if count == 0 {
            break;
        }
        bytes.extend_from_slice(&block[..count])?;
    }
    Ok(bytes)
}
