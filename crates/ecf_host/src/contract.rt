//! The contract file: fetched from the shelf, cut into tokens, read as a tree, and given numbers for names.

ghost use Rattle.std.specs.Prelude.{◌≡◌, ◌≤◌, IfOk, IfErr, Ok, Err, length};
ghost use Rattle.ecf_grammar.specs.Reading.{Reads};
ghost use Rattle.ecf_heap.specs.Numbered.{IsWithinLimits};
ghost use Rattle.ecf_lines.specs.Line.{IsNumbered};
ghost use Rattle.ecf_wellformed.specs.WellFormed.{IsWellFormed};
ghost use Rattle.ecf_host.specs.Contract.{fetched, lexed, parsed, spelled, typed, contract};
ghost use Rattle.ecf_host.specs.Failures.{IfRefused, OnNoMemory};
ghost use Rattle.ecf_host.specs.World.{shelf_state};

use crate::failure::Failure;
use ecf_edge::Shelf;
use ecf_lang::limits::{MAX_CONTRACT_BYTES, MAX_OBJECTS};
use ecf_lang::tree::Tree;
use ecf_lang::typed::Typed;
use ecf_lexer::{Token, lex};
use ecf_parser::parse;
use ecf_typing::check;
use ecf_wellformed::well_formed_is_numbered;
use ecf_welltyped::numbered_form_is_well_formed;
use std::alloc::Global;

/// The text of a contract file.
pub fn fetch_contract<F: Shelf>(
    alloc: Global,
    file: &str,
    shelf: &mut F,
) -> Result<Vec<u8>, Failure>
    ensures text { IfOk result (λ text. fetched (shelf_state F.Shelf shelf.old) (shelf_state F.Shelf shelf.new) file.now (Ok text.items)) }
    ensures refused { IfErr result (λ failure. IfRefused failure (λ refusal.
        fetched (shelf_state F.Shelf shelf.old) (shelf_state F.Shelf shelf.new) file.now (Err refusal))) }
    ensures stands { IfOk result (λ _. shelf_state F.Shelf shelf.new ≡ shelf_state F.Shelf shelf.old) }
    ensures no_memory { IfErr result (λ failure. OnNoMemory failure (shelf_state F.Shelf shelf.new ≡ shelf_state F.Shelf shelf.old)) }
{
    Ok(shelf.fetch(alloc, file, MAX_CONTRACT_BYTES)?)
}

/// The contract that a text is.
#[tactic(auto, using(crate::proofs::TypeLaws::contract_is_well_formed, crate::proofs::TypeLaws::well_formed_within_limits))]
pub fn contract_of(alloc: Global, text: &[u8]) -> Result<Typed, Failure>
    requires { length text.now ≤ MAX_CONTRACT_BYTES }
    ensures contract { IfOk result (λ typed. contract text.now (Ok typed)) }
    ensures refused { IfErr result (λ failure. IfRefused failure (λ refusal. contract text.now (Err refusal))) }
    ensures well_formed { IfOk result IsWellFormed }
    ensures numbered { IfOk result IsNumbered }
    ensures limits { IfOk result IsWithinLimits }
    ensures few_objects { IfOk result (λ typed. length typed.objects ≤ MAX_OBJECTS) }
{
    numbered_form_is_well_formed();
    well_formed_is_numbered();
    let typed = read_contract(alloc, text)?;
    Ok(typed)
}

// The contract that a text is, stage by stage.
fn read_contract(alloc: Global, text: &[u8]) -> Result<Typed, Failure>
    requires { length text.now ≤ MAX_CONTRACT_BYTES }
    ensures contract { IfOk result (λ typed. contract text.now (Ok typed)) }
    ensures refused { IfErr result (λ failure. IfRefused failure (λ refusal. contract text.now (Err refusal))) }
{
    let tokens = tokens_of(alloc, text)?;
    let tree = tree_of(alloc, text, tokens.as_slice())?;
    typed_of(alloc, &tree)
}

/// The tree that a text spells; its names and types aren't looked at.
pub fn spelled_tree(alloc: Global, text: &[u8]) -> Result<Tree, Failure>
    requires { length text.now ≤ MAX_CONTRACT_BYTES }
    ensures tree { IfOk result (λ tree. spelled text.now (Ok tree)) }
    ensures refused { IfErr result (λ failure. IfRefused failure (λ refusal. spelled text.now (Err refusal))) }
{
    let tokens = tokens_of(alloc, text)?;
    tree_of(alloc, text, tokens.as_slice())
}

// The tokens of a text.
#[tactic(auto, using(crate::proofs::ContractLaws::lex_refused))]
fn tokens_of(alloc: Global, text: &[u8]) -> Result<Vec<Token>, Failure>
    requires { length text.now ≤ MAX_CONTRACT_BYTES }
    ensures tokens { IfOk result (λ tokens. lexed text.now (Ok tokens.items)) }
    ensures refused { IfErr result (λ failure. IfRefused failure (λ refusal. lexed text.now (Err refusal))) }
{
    Ok(lex(alloc, text)?)
}

// The tree that the tokens of a text spell.
#[tactic(auto, using(crate::proofs::ContractLaws::parse_refused))]
fn tree_of(alloc: Global, text: &[u8], tokens: &[Token]) -> Result<Tree, Failure>
    requires { Reads text.now tokens.now }
    ensures tree { IfOk result (λ tree. parsed text.now tokens.now (Ok tree)) }
    ensures refused { IfErr result (λ failure. IfRefused failure (λ refusal. parsed text.now tokens.now (Err refusal))) }
{
    Ok(parse(alloc, text, tokens)?)
}

// The numbered form of a tree.
#[tactic(auto, using(crate::proofs::TypeLaws::check_refused))]
fn typed_of(alloc: Global, tree: &Tree) -> Result<Typed, Failure>
    ensures typed { IfOk result (λ form. typed tree.now (Ok form)) }
    ensures refused { IfErr result (λ failure. IfRefused failure (λ refusal. typed tree.now (Err refusal))) }
{
    Ok(check(alloc, tree)?)
}
