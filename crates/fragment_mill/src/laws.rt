//! What determines a mill, and what comes back of one. The functions do nothing; their contracts are the laws.
ghost use Rattle.fragment_mill.specs.Sameness.{InputsDetermineMills};
ghost use Rattle.fragment_mill.specs.States.{StatesComeBack};

/// Two mills of one width with the same operators, neither of them spent, that took the same inputs
/// are the same.
pub fn inputs_determine_a_mill()
    ensures { InputsDetermineMills }
{}

/// The parts of a mill that took inputs as the engine of a plan's fragment does have no fault, and the mill
/// that is made of them is the same.
pub fn states_come_back()
    ensures { StatesComeBack }
{}
