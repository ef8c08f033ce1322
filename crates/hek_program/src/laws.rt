//! Laws of programs.
ghost use Rattle.hek_program.specs.Acts.{PlainStepsAreConstant};

/// A plain schedule is a program whose moves are constants: a step without a term and without a condition makes its own
/// event, whatever its transaction has seen; `fail` fails.
pub fn plain_steps_are_constant()
    ensures { PlainStepsAreConstant }
{}
