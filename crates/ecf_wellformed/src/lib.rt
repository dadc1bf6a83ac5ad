//! What it takes for a contract in its typed form to be well formed: the definition, a contract on either side of it, and
//! what it gives to whoever reads transactions of the contract.
#![tactic(auto)]

ghost use Rattle.ecf_wellformed.specs.Cases.{CounterIsWellFormed, FlagIsNoNumber};
ghost use Rattle.ecf_wellformed.specs.Numbering.{WellFormedIsNumbered};

/// A counter is well formed; one that takes a flag for a number isn't.
pub fn counter()
    ensures is_well_formed { CounterIsWellFormed }
    ensures flag_is_no_number { FlagIsNoNumber }
{}

/// A well-formed contract is one whose streams can be read: it has at most 256 objects, at most 65,536 method names
/// (in fact no more than its objects can have methods), and a signature for each of these names.
pub fn well_formed_is_numbered()
    ensures { WellFormedIsNumbered }
{}
