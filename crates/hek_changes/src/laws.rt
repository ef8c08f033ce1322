//! A law of holders, as the contract of a function that does nothing.
ghost use Rattle.hek_changes.specs.Holders.{HoldersFollow};

/// Read locks and words follow the changes of the lock that exchanges are: a transaction stands among the holders as often as it
/// came and didn't go, and a word counts its readers and names its writer.
pub fn holders_follow_changes()
    ensures { HoldersFollow }
{}
