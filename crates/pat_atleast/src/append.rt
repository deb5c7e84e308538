ghost use Rattle.std.specs.Prelude.{◌≡◌, ◌++◌, OnOk};

use cedr_base::OutOfMemory;

/// Appends some things. Where memory runs out some of them may stand there.
pub(crate) fn append<T: Drop>(more: Vec<T>, to: &mut Vec<T>) -> Result<(), OutOfMemory>
    ensures { OnOk result (to.new.items ≡ to.old.items ++ more.items) }
{
    for one in more {
        to.push(one)?;
    }
    Ok(())
}
