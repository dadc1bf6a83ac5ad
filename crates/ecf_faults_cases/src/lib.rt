//! What is wrong with small files: each function is a group of cases, proved by computation, and does nothing. Every kind of
//! fault is there alone, at each place where it may stand.
#![tactic(auto)]

ghost use Rattle.ecf_faults_cases.specs.Names.{MisusedNames, UnknownMethods, UnknownNames, Visibility, WrongArities};
ghost use Rattle.ecf_faults_cases.specs.Types.{Operands, Parts, Values};
ghost use Rattle.ecf_faults_cases.specs.Declared.{InitialValues, Keys, Repeated, Signatures};
ghost use Rattle.ecf_faults_cases.specs.Limits.{LocalLimit, MemberLimits, ObjectLimit, ParameterLimit, RepeatedCount};

/// Names and methods that aren't found or are misused, another number of arguments, and where locals are visible.
pub fn names()
    ensures unknown { UnknownNames }
    ensures misused { MisusedNames }
    ensures methods { UnknownMethods }
    ensures arities { WrongArities }
    ensures visible { Visibility }
{}

/// Every place at which a type is required.
pub fn types()
    ensures operands { Operands }
    ensures parts { Parts }
    ensures values { Values }
{}

/// Declarations of one name, signatures that differ, keys of one value, and initial values.
pub fn declared()
    ensures repeated { Repeated }
    ensures signatures { Signatures }
    ensures keys { Keys }
    ensures initial { InitialValues }
{}

/// Every limit, and what is past it.
pub fn limits()
    ensures objects { ObjectLimit }
    ensures members { MemberLimits }
    ensures repeated { RepeatedCount }
    ensures parameters { ParameterLimit }
    ensures locals { LocalLimit }
{}
