ghost use Rattle.std.specs.Prelude.{◌≡◌, ◌<◌, ◌≤◌, ◌++◌, IfOk, OnOk};
ghost use Rattle.cedr_make.specs.Generator.{chance, made_payload_text, insertion_text, retraction_text, guarantee_text, event_text, made_text};
ghost use Rattle.cedr_make.specs.Numbers.{AreNumbers};

use cedr_base::OutOfMemory;
use cedr_text::write_number;
use std::alloc::Global;

/// The numbers of one event.
#[derive(Clone, Copy)]
struct EventNumbers {
    begin: u64,
    length: u64,
    key: u64,
    value: u64,
}

/// A number below 4,096 that looks like chance.
fn chance(k: u64) -> u64
    requires { k < 1000000 }
    ensures { result ≡ chance k }
{
    (k * 40503 + 12345) % 65536 / 16
}

/// The numbers of the event of this number of a source.
fn numbers_of(source: u64, i: u64) -> EventNumbers
    requires source { source ≤ 1 }
    requires number { i < 100000 }
    ensures { AreNumbers source i result }
{
    let seed = 8 * i + 4 * source;
    EventNumbers {
        begin: 10 * i + chance(seed) % 50,
        length: 1 + chance(seed + 1) % 100,
        key: chance(seed + 2) % 2,
        value: chance(seed + 3) % 1000,
    }
}

/// A key and a value, each after a comma.
fn push_payload(
    source: u64,
    i: u64,
    numbers: EventNumbers,
    out: &mut Vec<u8>,
) -> Result<(), OutOfMemory>
    requires { AreNumbers source i numbers }
    ensures { OnOk result (out.new.items ≡ out.old.items ++ made_payload_text source i) }
{
    out.extend_from_slice(b",k")?;
    write_number(numbers.key, out)?;
    out.push(b',')?;
    write_number(numbers.value, out)
}

fn push_insertion(
    source: u64,
    i: u64,
    numbers: EventNumbers,
    out: &mut Vec<u8>,
) -> Result<(), OutOfMemory>
    requires number { i < 100000 }
    requires numbers { AreNumbers source i numbers }
    ensures { OnOk result (out.new.items ≡ out.old.items ++ insertion_text source i) }
{
    out.extend_from_slice(b"+,")?;
    write_number(i, out)?;
    out.push(b',')?;
    write_number(numbers.begin, out)?;
    out.push(b',')?;
    write_number(numbers.begin + numbers.length, out)?;
    push_payload(source, i, numbers, out)?;
    out.push(b'\n')?;
    Ok(())
}

/// Each fifth event is cut to half of its length.
fn push_retraction(
    source: u64,
    i: u64,
    numbers: EventNumbers,
    out: &mut Vec<u8>,
) -> Result<(), OutOfMemory>
    requires number { i < 100000 }
    requires numbers { AreNumbers source i numbers }
    ensures { OnOk result (out.new.items ≡ out.old.items ++ retraction_text source i) }
{
    if i % 5 != 4 {
        return Ok(());
    }
    out.extend_from_slice(b"-,")?;
    write_number(i, out)?;
    out.push(b',')?;
    write_number(numbers.begin + numbers.length / 2, out)?;
    out.push(b'\n')?;
    Ok(())
}

/// After each sixteenth event stands a guarantee.
fn push_guarantee(i: u64, out: &mut Vec<u8>) -> Result<(), OutOfMemory>
    requires { i < 100000 }
    ensures { OnOk result (out.new.items ≡ out.old.items ++ guarantee_text i) }
{
    if i % 16 != 15 {
        return Ok(());
    }
    out.extend_from_slice(b"=,")?;
    write_number(10 * (i + 1), out)?;
    out.push(b'\n')?;
    Ok(())
}

/// The lines of one event.
fn push_event(source: u64, i: u64, out: &mut Vec<u8>) -> Result<(), OutOfMemory>
    requires source { source ≤ 1 }
    requires number { i < 100000 }
    ensures { OnOk result (out.new.items ≡ out.old.items ++ event_text source i) }
{
    let numbers = numbers_of(source, i);
    push_insertion(source, i, numbers, out)?;
    push_retraction(source, i, numbers, out)?;
    push_guarantee(i, out)
}

/// The event file of a source of `n` events: of the plan's source `a` for 0, and of `b` for 1. Each event is an
/// insertion. Each fifth one is then cut to half of its length, and after each sixteenth one stands a guarantee. O(n),
/// with some 30 bytes for each event.
pub fn made_bytes(alloc: Global, n: u64, source: usize) -> Result<Vec<u8>, OutOfMemory>
    requires least { 1 ≤ n }
    requires most { n ≤ 100000 }
    requires source { source ≤ 1 }
    ensures { IfOk result (λ bytes. bytes.items ≡ made_text source n) }
{
    let mut bytes = Vec::new(alloc);
    for i in 0..n {
        push_event(source as u64, i, &mut bytes)?;
    }
    Ok(bytes)
}
