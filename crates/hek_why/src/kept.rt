//! Lists that a loop gathers.
ghost use Rattle.std.specs.Prelude.{◌≡◌, ◌∷◌, [], ◌++◌, if◌then◌else◌, OnOk};

use hek_rules::NoMemory;

/// Appends an item to a list, if it passes.
pub(crate) fn keep_if<T: Drop>(passes: bool, item: T, list: &mut Vec<T>) -> Result<(), NoMemory>
    ensures { OnOk result (list.new.items ≡ (if passes then list.old.items ++ item ∷ [] else list.old.items)) }
{
    if passes {
        list.push(item)?;
    }
    Ok(())
}
