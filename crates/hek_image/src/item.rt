//! What an image has after its header.
ghost use Rattle.std.specs.Prelude.{◌≡◌};
ghost use Rattle.hek_image.specs.Taking.{item_size};

use hek_rules::Level;

/// What is read and added at once: a row, a transaction with a name of a given length, or a step.
#[derive(Clone, Copy)]
pub(crate) enum Item {
    Row,
    Name(Level, u8),
    Step,
}

/// How many bytes an item has. The level and the length of a name are not counted.
pub(crate) fn item_size(item: Item) -> usize
    ensures { result ≡ item_size item }
{
    match item {
        Item::Row => 16,
        Item::Name(_, len) => len as usize,
        Item::Step => 21,
    }
}
