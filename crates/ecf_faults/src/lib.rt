//! What is wrong with the names and types of a contract file, and the numbered form of a file in which nothing is: the
//! definitions, over the tree alone. Nothing here looks for faults; who does is held to this.
#![tactic(auto)]

ghost use Rattle.ecf_faults.specs.Least.{LeftIsLeast, LeftOfNone};
ghost use Rattle.ecf_faults.specs.Cases.{UnknownNameCase, TwoLocalsCase, WrongTypeCase, WrongArityCase, OneNameCase, FirstSignatureCase, SoundCase};
ghost use Rattle.ecf_faults.specs.Files.{OneObjectCase, TwoObjectsCase};

use ecf_lang::tree::Ty;

/// The kinds of faults, in their order.
#[derive(Clone, Copy, Debug, PartialEq, Eq, PartialOrd, Ord)]
pub enum What {
    /// An object's name that stands earlier in the file.
    TwoObjects,
    /// The name of a field or map that stands earlier in the object.
    TwoFields,
    /// A method's name that stands earlier in the object.
    TwoMethods,
    /// The name of a parameter or `let` where a local of that name is visible.
    TwoLocals,
    /// A method's name whose types differ from those of the first method of that name in the file.
    TwoSignatures,
    /// An initial key that has the value of an earlier one.
    TwoKeys,
    /// The name of an object past the limit.
    TooManyObjects,
    /// The name of a field or map past the limit, or of a method past the limit.
    TooManyMembers,
    /// The name of a parameter past the limit, or of a local past the limit.
    TooManyLocals,
    /// A name that isn't found.
    UnknownName,
    /// A map without an index, an index on a plain field, or an assignment to an object.
    Misused,
    /// A called method that the own object hasn't, or that no object has.
    UnknownMethod,
    /// A called method that takes another number of arguments.
    WrongArity,
    /// An expression or initial value of another type than the one required.
    WrongType,
}

/// A fault, by the token where it stands. The first is the one of the least token, and of those at one token the one whose
/// kind stands first.
#[derive(Clone, Copy, Debug, PartialEq, Eq, PartialOrd, Ord)]
pub struct Fault {
    pub token: u32,
    pub what: What,
}

/// What a name without an index stands for.
#[derive(Clone, Copy, Debug, PartialEq, Eq)]
pub enum Referent {
    /// A visible local, by its number and type.
    Local(u8, Ty),
    /// A plain field of the own object, by its number and type.
    Field(u8, Ty),
    /// An object, by its number.
    Object(u8),
    /// A map of the own object, and nothing else.
    Map,
    Nothing,
}

/// Going through a list of faults, and keeping the lesser of two, leaves the first of them, or nothing where there is none.
pub fn least_is_left()
    ensures some { LeftIsLeast }
    ensures none { LeftOfNone }
{}

/// Small files with few faults each, and one without.
pub fn small_cases()
    ensures unknown_name { UnknownNameCase }
    ensures two_locals { TwoLocalsCase }
    ensures wrong_type { WrongTypeCase }
    ensures wrong_arity { WrongArityCase }
    ensures one_name { OneNameCase }
    ensures first_signature { FirstSignatureCase }
    ensures sound { SoundCase }
{}

/// Two files with thirty-one faults, of all kinds but those of limits.
pub fn file_cases()
    ensures one_object { OneObjectCase }
    ensures two_objects { TwoObjectsCase }
{}
