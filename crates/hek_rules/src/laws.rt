//! Laws of the definitions, as contracts of functions with empty bodies.
ghost use Rattle.hek_rules.specs.Victim.{VictimIsFound, NoneIsRight};

/// The computed victim is the greatest transaction on a closed walk, and its cycle the shortest closed walk from it,
/// the least of equal length. No victim is computed exactly if no walk is closed.
pub fn victim_is_that_of_walks()
    ensures found { VictimIsFound }
    ensures none { NoneIsRight }
{}
