//! Worked contracts as theorems, proved by computation: of each its runs with all that they leave, the verdict on
//! their steps, and the receipts and stores that come of them. Each function is one contract, and does nothing.
#![tactic(auto)]

ghost use Rattle.ecf_cases.specs.AnsweredTry;
ghost use Rattle.ecf_cases.specs.AnswersOnRecord;
ghost use Rattle.ecf_cases.specs.ApartYetFree;
ghost use Rattle.ecf_cases.specs.Arithmetic;
ghost use Rattle.ecf_cases.specs.BankClearsFirst;
ghost use Rattle.ecf_cases.specs.BankPaysFirst;
ghost use Rattle.ecf_cases.specs.CallbackFirst;
ghost use Rattle.ecf_cases.specs.CaughtCallback;
ghost use Rattle.ecf_cases.specs.CaughtDepth;
ghost use Rattle.ecf_cases.specs.CaughtRevert;
ghost use Rattle.ecf_cases.specs.Causes;
ghost use Rattle.ecf_cases.specs.Charges;
ghost use Rattle.ecf_cases.specs.Counter;
ghost use Rattle.ecf_cases.specs.CycleOfThree;
ghost use Rattle.ecf_cases.specs.CyclicThenReverted;
ghost use Rattle.ecf_cases.specs.EndlessLoop;
ghost use Rattle.ecf_cases.specs.EqualValues;
ghost use Rattle.ecf_cases.specs.EvaluationOrder;
ghost use Rattle.ecf_cases.specs.FlagPair;
ghost use Rattle.ecf_cases.specs.Limits;
ghost use Rattle.ecf_cases.specs.Logic;
ghost use Rattle.ecf_cases.specs.MissingMethod;
ghost use Rattle.ecf_cases.specs.NestedTries;
ghost use Rattle.ecf_cases.specs.Operators;
ghost use Rattle.ecf_cases.specs.OtherObject;
ghost use Rattle.ecf_cases.specs.OuterDepth;
ghost use Rattle.ecf_cases.specs.OwnCalls;
ghost use Rattle.ecf_cases.specs.OwnDepth;
ghost use Rattle.ecf_cases.specs.ReadsUnderTry;
ghost use Rattle.ecf_cases.specs.ReturnInLoop;
ghost use Rattle.ecf_cases.specs.RunAlone;
ghost use Rattle.ecf_cases.specs.StrayCall;
ghost use Rattle.ecf_cases.specs.SumOfSquares;
ghost use Rattle.ecf_cases.specs.TryArguments;

use ecf_verdicts::{approves_free, vetoes_least};

/// A counter that counts: with ample fuel, with just enough, with too little, twice in one transaction, and in two transactions.
pub fn counter()
    ensures counts_once { Counter.CountsOnce }
    ensures uses_all_fuel { Counter.UsesAllFuel }
    ensures wants_fuel_for_read { Counter.WantsFuelForRead }
    ensures wants_fuel_for_write { Counter.WantsFuelForWrite }
    ensures counts_twice { Counter.CountsTwice }
    ensures undoes_both { Counter.UndoesBoth }
    ensures counts_again { Counter.CountsAgain }
    ensures bump_approved { Counter.BumpApproved }
    ensures bump_committed { Counter.BumpCommitted }
    ensures bump_changes { Counter.BumpChanges }
    ensures two_approved { Counter.TwoApproved }
    ensures two_committed { Counter.TwoCommitted }
    ensures two_change { Counter.TwoChange }
    ensures want_is_receipt { Counter.WantIsReceipt }
    ensures want_changes_nothing { Counter.WantChangesNothing }
    ensures second_want_is_receipt { Counter.SecondWantIsReceipt }
    ensures second_want_changes_nothing { Counter.SecondWantChangesNothing }
    ensures again_approved { Counter.AgainApproved }
    ensures each_committed { Counter.EachCommitted }
    ensures each_changes { Counter.EachChanges }
{}

/// A bank that pays before it clears the debt: vetoed, since each withdrawal must come before the other.
pub fn bank_pays_first()
    ensures pays_twice { BankPaysFirst.PaysTwice }
    ensures steps_vetoed { BankPaysFirst.StepsVetoed }
    ensures withdrawal_vetoed { BankPaysFirst.WithdrawalVetoed }
    ensures store_stays { BankPaysFirst.StoreStays }
    ensures no_swaps_help { BankPaysFirst.NoSwapsHelp }
{
    vetoes_least();
}

/// A bank that clears the debt before it pays: committed, with the order of the calls of each object.
pub fn bank_clears_first()
    ensures pays_once { BankClearsFirst.PaysOnce }
    ensures steps_approved { BankClearsFirst.StepsApproved }
    ensures withdrawal_committed { BankClearsFirst.WithdrawalCommitted }
    ensures store_changes { BankClearsFirst.StoreChanges }
{}

/// A callback that ends before its caller's first step: committed, the callback ordered before its caller.
pub fn callback_first()
    ensures comes_first { CallbackFirst.ComesFirst }
    ensures steps_approved { CallbackFirst.StepsApproved }
    ensures is_committed { CallbackFirst.IsCommitted }
    ensures store_changes { CallbackFirst.StoreChanges }
{}

/// Three invocations of one object, each before the next and the last before the first, but no two in a cycle: vetoed.
pub fn cycle_of_three()
    ensures goes_around { CycleOfThree.GoesAround }
    ensures steps_vetoed { CycleOfThree.StepsVetoed }
    ensures is_vetoed { CycleOfThree.IsVetoed }
    ensures store_stays { CycleOfThree.StoreStays }
    ensures no_swaps_help { CycleOfThree.NoSwapsHelp }
{
    vetoes_least();
}

/// A callback between its caller's steps, on a field of its own: swaps help, so it is committed.
pub fn apart_yet_free()
    ensures steps_apart { ApartYetFree.StepsApart }
    ensures steps_approved { ApartYetFree.StepsApproved }
    ensures is_committed { ApartYetFree.IsCommitted }
    ensures store_changes { ApartYetFree.StoreChanges }
    ensures not_together { ApartYetFree.NotTogether }
    ensures swaps_help { ApartYetFree.SwapsHelp }
    ensures later_swap_helps { ApartYetFree.LaterSwapHelps }
    ensures earlier_swap_helps { ApartYetFree.EarlierSwapHelps }
{
    approves_free();
}

/// A run that no swaps could help, and which reverts in the end: it isn't judged, and the revert is its receipt.
pub fn cyclic_then_reverted()
    ensures reverts_at_last { CyclicThenReverted.RevertsAtLast }
    ensures steps_vetoed { CyclicThenReverted.StepsVetoed }
    ensures is_reverted { CyclicThenReverted.IsReverted }
    ensures store_stays { CyclicThenReverted.StoreStays }
    ensures no_swaps_help { CyclicThenReverted.NoSwapsHelp }
{
    vetoes_least();
}

/// Writes of equal numbers: vetoed as others are.
pub fn equal_values()
    ensures writes_the_same { EqualValues.WritesTheSame }
    ensures steps_vetoed { EqualValues.StepsVetoed }
    ensures is_vetoed { EqualValues.IsVetoed }
    ensures store_stays { EqualValues.StoreStays }
    ensures no_swaps_help { EqualValues.NoSwapsHelp }
{
    vetoes_least();
}

/// An internal call belongs to its caller, and is committed; an external call of the same method is vetoed.
pub fn own_calls()
    ensures stays_inside { OwnCalls.StaysInside }
    ensures own_approved { OwnCalls.OwnApproved }
    ensures own_committed { OwnCalls.OwnCommitted }
    ensures own_changes { OwnCalls.OwnChanges }
    ensures calls_itself { OwnCalls.CallsItself }
    ensures out_steps_vetoed { OwnCalls.OutStepsVetoed }
    ensures out_vetoed { OwnCalls.OutVetoed }
    ensures out_changes_nothing { OwnCalls.OutChangesNothing }
    ensures no_swaps_help { OwnCalls.NoSwapsHelp }
{
    vetoes_least();
}

/// A call of another object: charged to the caller, its body to the callee, and the answer kept with the caller.
pub fn other_object()
    ensures calls_another { OtherObject.CallsAnother }
{}

/// Several calls, one of them from an internal call: all answers are kept with the caller, in order.
pub fn answers_on_record()
    ensures answers_in_order { AnswersOnRecord.AnswersInOrder }
{}

/// What is evaluated first, as the steps tell.
pub fn evaluation_order()
    ensures index_before_value { EvaluationOrder.IndexFirst }
    ensures left_before_right { EvaluationOrder.LeftFirst }
    ensures left_side_before_right_side { EvaluationOrder.LeftSideFirst }
    ensures target_before_arguments { EvaluationOrder.TargetFirst }
{}

/// Fuel that ends between a charge and its effect.
pub fn charges()
    ensures before_let { Charges.ChargedBeforeLet }
    ensures before_assignment { Charges.ChargedBeforeSet }
    ensures before_map_assignment { Charges.ChargedBeforeSetMap }
    ensures before_if { Charges.ChargedBeforeIf }
    ensures before_while { Charges.ChargedBeforeWhile }
    ensures before_return { Charges.ChargedBeforeReturn }
    ensures before_revert { Charges.ChargedBeforeRevert }
    ensures before_call_statement { Charges.ChargedBeforeDo }
    ensures before_try { Charges.ChargedBeforeTry }
    ensures before_local_assignment { Charges.ChargedBeforeSetLocal }
    ensures value_before_charge_of_write { Charges.ValueBeforeWriteCharge }
    ensures write_charge { Charges.WriteCharge }
    ensures index_and_value_before_charge { Charges.IndexAndValueFirst }
    ensures map_write_charge { Charges.MapWriteCharge }
    ensures condition_before_turn { Charges.ConditionBeforeTurn }
    ensures index_before_charge_of_read { Charges.IndexBeforeReadCharge }
    ensures map_read_charge { Charges.MapReadCharge }
    ensures parts_before_charge_of_sum { Charges.PartsBeforeSum }
    ensures parts_before_charge_of_product { Charges.PartsBeforeProduct }
    ensures sides_before_charge_of_comparison { Charges.SidesBeforeComparison }
    ensures inner_before_charge_of_not { Charges.InnerBeforeNot }
    ensures and_charge { Charges.AndCharge }
    ensures or_charge { Charges.OrCharge }
    ensures arguments_before_charge_of_internal_call { Charges.ArgumentsBeforeInternalCharge }
    ensures arguments_before_charge_of_call { Charges.ArgumentsBeforeCallCharge }
    ensures arguments_before_charge_of_try { Charges.ArgumentsBeforeTryCharge }
    ensures operator_charge { Charges.OperatorCharge }
    ensures internal_test_charge { Charges.InternalTestCharge }
    ensures test_charge { Charges.TestCharge }
    ensures try_test_charge { Charges.TryTestCharge }
    ensures tests_once_paid { Charges.PaidTest }
{}

/// Runs that revert, each for its cause.
pub fn causes()
    ensures sum_overflows { Causes.SumOverflows }
    ensures difference_overflows { Causes.DifferenceOverflows }
    ensures product_overflows { Causes.ProductOverflows }
    ensures divides_by_zero { Causes.DividesByZero }
    ensures remainder_by_zero { Causes.RemainderByZero }
    ensures wants_method { Causes.WantsMethod }
    ensures reverts_itself { Causes.RevertsItself }
    ensures second_call_reverts { Causes.SecondReverts }
    ensures first_call_reverts { Causes.FirstReverts }
{}

/// A call of an object that is not there: it has no method.
pub fn stray_call()
    ensures misses_the_object { StrayCall.Strays }
{}

/// Internal calls until no frame may be opened.
pub fn own_depth()
    ensures too_deep { OwnDepth.TooDeep }
    ensures not_paid { OwnDepth.NotPaid }
{}

/// External calls until no frame may be opened.
pub fn outer_depth()
    ensures too_deep_outside { OuterDepth.TooDeepOutside }
    ensures not_paid_outside { OuterDepth.NotPaidOutside }
{}

/// Tries until no frame may be opened: the innermost one catches it.
pub fn caught_depth()
    ensures catches_depth { CaughtDepth.CatchesDepth }
{}

/// A callee whose revert is caught: committed, with the caller's writes alone. Want of fuel isn't caught.
pub fn caught_revert()
    ensures catches_revert { CaughtRevert.CatchesRevert }
    ensures lets_want_of_fuel_through { CaughtRevert.WantOfFuelPasses }
    ensures steps_approved { CaughtRevert.StepsApproved }
    ensures is_committed { CaughtRevert.IsCommitted }
    ensures store_changes { CaughtRevert.StoreChanges }
{}

/// What the callee called is undone with it.
pub fn caught_callback()
    ensures undoes_callback { CaughtCallback.UndoesCallback }
{}

/// A missing method is caught, and opens no invocation.
pub fn missing_method()
    ensures catches_missing_method { MissingMethod.CatchesMissing }
{}

/// A try whose callee answers: its steps and writes stay.
pub fn answered_try()
    ensures keeps_an_answer { AnsweredTry.KeepsAnswer }
{}

/// What was read under a try stays among the reads; what was written is as before.
pub fn reads_under_try()
    ensures keeps_reads { ReadsUnderTry.ReadsStay }
{}

/// The innermost try catches; the outer one hears an answer.
pub fn nested_tries()
    ensures innermost_catches { NestedTries.InnermostCatches }
{}

/// A revert in an argument of a try is not caught by it.
pub fn try_arguments()
    ensures arguments_are_outside { TryArguments.ArgumentReverts }
{}

/// A loop that fills a map and sums it: several turns, and none.
pub fn sum_of_squares()
    ensures sums_squares { SumOfSquares.SumsSquares }
    ensures no_turn { SumOfSquares.NoTurn }
{}

/// A return from inside a loop ends the method.
pub fn return_in_loop()
    ensures returns_from_loop { ReturnInLoop.ReturnsFromLoop }
{}

/// A loop without end takes all the fuel.
pub fn endless_loop()
    ensures spins { EndlessLoop.Spins }
{}

/// Comparisons, `!`, `&&`, `||`, `if`, and the end of a method.
pub fn logic()
    ensures evaluates_both { Logic.BothRead }
    ensures skips_after_false { Logic.RightSkipped }
    ensures evaluates_other { Logic.OtherRead }
    ensures skips_after_true { Logic.OtherSkipped }
    ensures negates { Logic.AllThree }
    ensures skips_two { Logic.NoneOfThree }
    ensures takes_first_arm { Logic.FirstArm }
    ensures takes_second_arm { Logic.SecondArm }
    ensures takes_else { Logic.LastBlock }
    ensures answers_0_at_its_end { Logic.EndsSilently }
    ensures returns_before_its_end { Logic.NoElse }
{}

/// `&&`, `||` and `!` of flags that are neither 0 nor 1.
pub fn flag_pair()
    ensures and_gives_the_last_value { FlagPair.OddBoth }
    ensures or_gives_the_last_value { FlagPair.OddEither }
    ensures not_of_an_odd_flag { FlagPair.OddNot }
{}

/// Sums and products, from left to right.
pub fn arithmetic()
    ensures goes_left_to_right { Arithmetic.Chains }
    ensures keeps_brackets { Arithmetic.Groups }
    ensures multiplies_in_order { Arithmetic.Multiplies }
    ensures multiplies_first { Arithmetic.Mixes }
    ensures reaches_the_greatest_number { Arithmetic.Greatest }
    ensures reaches_0 { Arithmetic.Least }
    ensures multiplies_great_numbers { Arithmetic.GreatProduct }
{}

/// The eleven operators, each at a few pairs of numbers.
pub fn operators()
    ensures at_greater { Operators.AtGreater }
    ensures at_smaller { Operators.AtSmaller }
    ensures at_equal { Operators.AtEqual }
    ensures at_zero_right { Operators.AtZero }
    ensures at_zero_left { Operators.AtZeroLeft }
{}

/// The tests of a call, in their order.
pub fn limits()
    ensures depth_before_all { Limits.DepthBeforeAll }
    ensures depth_before_method { Limits.DepthBeforeMethod }
    ensures invocations_before_method { Limits.InvocationsBeforeMethod }
    ensures method_at_last { Limits.MethodAtLast }
    ensures internal_method { Limits.InternalMethod }
{}

/// Invocations of whole runs, each run alone.
pub fn alone()
    ensures first_of_bank { RunAlone.FirstOfBank }
    ensures second_of_bank { RunAlone.SecondOfBank }
    ensures first_of_thief { RunAlone.FirstOfThief }
    ensures second_of_thief { RunAlone.SecondOfThief }
    ensures outer_alone { RunAlone.UnclearedFirst }
    ensures inner_alone { RunAlone.UnclearedSecond }
    ensures no_answer_left { RunAlone.NoAnswerLeft }
    ensures no_fuel_left { RunAlone.NoFuelLeft }
    ensures hears_in_order { RunAlone.HearsInOrder }
    ensures hears_flag { RunAlone.HearsFlag }
    ensures undone_alone { RunAlone.UndoneAlone }
{}
