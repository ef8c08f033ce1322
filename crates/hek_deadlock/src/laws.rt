//! A law of the definitions, as the contract of a function with an empty body.
ghost use Rattle.hek_deadlock.specs.Shown.{VictimIsShown};
ghost use Rattle.hek_deadlock.specs.Victims.{VictimIsOfWalks, NoneIsOfWalks};

/// The victim of a store and transactions that show a world is the world's, with its cycle. In each world the victim
/// and the cycle are those of closed walks, and there is none exactly if no walk is closed.
pub fn victim_is_that_of_the_world()
    ensures shown { VictimIsShown }
    ensures found { VictimIsOfWalks }
    ensures none { NoneIsOfWalks }
{}
