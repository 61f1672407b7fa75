//! Return maps, from the words behind `return`.

ghost use Rattle.std.specs.Prelude.{◌≡◌, ◌∷◌, ◌++◌, [], ℕ, List, ◌&&◌, ◌||◌, not, IfOk, IfSome, MatchOption, is_some, true, false, option_map, map};
ghost use Rattle.wpds_port.specs.declared.Mark.TheVariants.{Equal};
ghost use Rattle.wpds_port.specs.declared.Word.TheVariants.{Name, Mark as Sign};
ghost use Rattle.wpds_port.specs.Words.{word_of};
ghost use Rattle.document_forms.specs.Words.{each_of_some, name_of};
ghost use Rattle.document_forms.specs.Returns.{MoveForm, PlainReturn, moves_of, restore_of, only_moves, return_of};
ghost use Rattle.document_forms.specs.Kinds.{allows_restore as allows_restore_of, allows_moves as allows_moves_of};
ghost use Rattle.document_forms.specs.declared.weight.WeightsLine.{WeightsLine as WeightsLineValue};
ghost use Rattle.rule_reader.specs.Names.{names_in_front};
ghost use Rattle.rule_reader.specs.NameReads.{AreNumbersRead, HasNames};
ghost use Rattle.rule_reader.specs.private.Returns.{begins_move, are_pairs, moves_said, move_form, moves_if_said, return_form, AreMovesRead, ArePairs, IsSaid, restored_in, moved_in, map_said, IsReadReturn, IsReturnRead};

use crate::lexemes::{is_any_name, is_name};
use crate::name_reads::{NamesOnce, NamesRead, read_names};
use crate::names::NameTable;
use document_forms::{MapText, Move, Moves, Numbers, WeightsLine};
use std::alloc::Global;
use wpds_base::OutOfMemory;
use wpds_port::{Lexeme, Mark, Words};

// What stands behind `return`, by its words.
#[derive(Drop)]
pub(crate) enum ReturnWords<'t> {
    Plain,
    // the names behind `restore`, and the pairs behind `move`
    Map {
        restore: Option<Words<'t>>,
        moves: Option<Words<'t>>,
    },
}

// A pair of words, `TO = FROM`.
#[derive(Clone, Copy)]
struct MoveWords<'t> {
    to: &'t [u8],
    from: &'t [u8],
}

// Whether the words are names, one at least.
fn are_names(words: &Words) -> bool
    ensures { result ≡ is_some (each_of_some name_of words.now) }
{
    let mut left = words.reborrow();
    while let Some((lexeme, rest)) = left.split_first() {
        if !is_any_name(lexeme) {
            return false;
        }
        left = rest;
    }
    words.split_first().is_some()
}

// The pair that words begin with, and the words behind it.
fn first_move<'t>(words: &Words<'t>) -> Option<(MoveWords<'t>, Words<'t>)>
    ensures { MatchOption result (begins_move words.now ≡ false)
        (λ p. words.now ≡ Name p.0.to.now ∷ Sign Equal ∷ Name p.0.from.now ∷ p.1) }
{
    let (Lexeme::Name(to), rest) = words.split_first()? else {
        return None;
    };
    let (Lexeme::Mark(Mark::Equal), rest) = rest.split_first()? else {
        return None;
    };
    let (Lexeme::Name(from), rest) = rest.split_first()? else {
        return None;
    };
    Some((MoveWords { to, from }, rest))
}

// Whether the words are pairs, one at least.
fn are_moves(words: &Words) -> bool
    ensures { result ≡ is_some (moves_of words.now) }
{
    let mut left = words.reborrow();
    while let Some((_, rest)) = first_move(&left) {
        match rest.split_first() {
            Some(_) => left = rest,
            None => return true,
        }
    }
    false
}

// Whether the words behind `move` are pairs, if the word is there.
fn are_moves_if_said(moves: &Option<Words>) -> bool
    ensures { result ≡ is_some (moves_if_said moves.now) }
{
    match moves {
        Some(pairs) => are_moves(pairs),
        None => true,
    }
}

// The form of the words behind `restore`.
fn restored<'t>(words: &Words<'t>) -> Option<ReturnWords<'t>>
    ensures form { option_map return_form result ≡ restore_of words.now }
    ensures said { IfSome result IsSaid }
{
    let (names, moves) = words.split_once(Lexeme::Name(b"move"));
    if !are_names(&names) {
        return None;
    }
    if !are_moves_if_said(&moves) {
        return None;
    }
    Some(ReturnWords::Map {
        restore: Some(names),
        moves,
    })
}

// The form of the words behind `move`.
fn moved<'t>(words: &Words<'t>) -> Option<ReturnWords<'t>>
    ensures form { option_map return_form result ≡ option_map only_moves (moves_of words.now) }
    ensures said { IfSome result IsSaid }
{
    if !are_moves(words) {
        return None;
    }
    Some(ReturnWords::Map {
        restore: None,
        moves: Some(words.reborrow()),
    })
}

/// The form of the words behind `return`.
pub(crate) fn return_words<'t>(words: &Words<'t>) -> Option<ReturnWords<'t>>
    ensures form { option_map return_form result ≡ return_of words.now }
    ensures said { IfSome result IsSaid }
{
    let (first, rest) = words.split_first()?;
    if is_name(first, b"plain") {
        return match rest.split_first() {
            None => Some(ReturnWords::Plain),
            Some(_) => None,
        };
    }
    if is_name(first, b"restore") {
        return restored(&rest);
    }
    if is_name(first, b"move") {
        return moved(&rest);
    }
    None
}

// Pairs of a map as they are read.
#[derive(Drop)]
struct MovesRead {
    moves: Vec<Move>,
    // Whether a name is none of the items.
    unknown: bool,
}

impl MovesRead {
    fn new(alloc: Global) -> MovesRead
        ensures { (items : List (List ℕ)) → AreMovesRead items [] result }
    {
        MovesRead {
            moves: Vec::new(alloc),
            unknown: false,
        }
    }

    fn add(&mut self, items: &NameTable<'_>, pair: MoveWords) -> Result<(), OutOfMemory>
        ensures { (done : List MoveForm) → AreMovesRead items.now done self.old
            → IfOk result (λ _.
            AreMovesRead items.now (done ++ move_form pair.entry ∷ []) self.new) }
    {
        match (items.number_of(pair.to), items.number_of(pair.from)) {
            (Some(to), Some(from)) => self.moves.push(Move { to, from })?,
            _ => self.unknown = true,
        }
        Ok(())
    }
}

// Reads the names behind `restore`, each of which is to stand once.
fn read_restored<'t>(
    alloc: Global,
    items: &NameTable<'_>,
    names: &mut NamesOnce<'t>,
    words: &Words<'t>,
) -> Result<NamesRead, OutOfMemory>
    ensures once { (seen : List (List ℕ)) → HasNames seen names.old
        → IfOk result (λ _. HasNames (seen ++ names_in_front words.now) names.new) }
    ensures read { IfOk result (AreNumbersRead items.now (names_in_front words.now)) }
{
    names.add_names(words)?;
    let (read, _rest) = read_names(alloc, items, words)?;
    Ok(read)
}

// Reads the pairs behind `move`, whose first names are each to stand once.
fn read_moved<'t>(
    alloc: Global,
    items: &NameTable<'_>,
    names: &mut NamesOnce<'t>,
    words: &Words<'t>,
) -> Result<MovesRead, OutOfMemory>
    requires { are_pairs words.now ≡ true }
    ensures once { (seen : List (List ℕ)) → HasNames seen names.old
        → IfOk result (λ _. HasNames (seen ++ map (λ m. m.to) (moves_said words.now)) names.new) }
    ensures read { IfOk result (AreMovesRead items.now (moves_said words.now)) }
{
    let mut read = MovesRead::new(alloc);
    let mut left = words.reborrow();
    while let Some((pair, rest)) = first_move(&left) {
        names.add(pair.to)?;
        read.add(items, pair)?;
        left = rest;
    }
    Ok(read)
}

/// A return as it is read.
#[derive(Drop)]
pub(crate) struct ReturnRead {
    /// The map, if nothing is unknown or foreign.
    pub(crate) map: Option<MapText>,
    /// Whether a name is restored or moved a second time.
    pub(crate) twice: bool,
    /// Whether a name that the weights let stand there is none of the items.
    pub(crate) unknown: bool,
    /// Whether the weights do not allow a word of it.
    pub(crate) foreign: bool,
}

impl ReturnRead {
    /// The plain return.
    pub(crate) fn plain() -> ReturnRead
        ensures { (u : WeightsLineValue) (items : List (List ℕ))
            → IsReadReturn u items PlainReturn result }
    {
        ReturnRead {
            map: None,
            twice: false,
            unknown: false,
            foreign: false,
        }
    }
}

// Whether the weights let `restore` stand.
fn allows_restore(weights: WeightsLine) -> bool
    ensures { result ≡ allows_restore_of weights }
{
    matches!(
        weights,
        WeightsLine::GenKill | WeightsLine::Copy | WeightsLine::Relation
    )
}

// Whether the weights let `move` stand.
fn allows_moves(weights: WeightsLine) -> bool
    ensures { result ≡ allows_moves_of weights }
{
    matches!(weights, WeightsLine::Relation)
}

// Whether a name is unknown that is looked up, where one that is restored or moved is unknown.
fn is_unknown(weights: WeightsLine, restored: bool, moved: bool) -> bool
    ensures { result
        ≡ ((allows_restore_of weights && restored) || (allows_moves_of weights && moved)) }
{
    (allows_restore(weights) && restored) || (allows_moves(weights) && moved)
}

// Whether the weights do not let a word stand that is there.
fn is_foreign(weights: WeightsLine, restores: bool, moves: bool) -> bool
    ensures { let away = not (allows_restore_of weights) in
        let still = not (allows_moves_of weights) in
        result ≡ ((restores && away) || (moves && still)) }
{
    (restores && !allows_restore(weights)) || (moves && !allows_moves(weights))
}

// Reads the names behind `restore`, if the word is there.
fn read_restore<'t>(
    alloc: Global,
    items: &NameTable<'_>,
    names: &mut NamesOnce<'t>,
    restore: &Option<Words<'t>>,
) -> Result<NamesRead, OutOfMemory>
    ensures once { (seen : List (List ℕ)) → HasNames seen names.old
        → IfOk result (λ _. HasNames (seen ++ restored_in restore.now) names.new) }
    ensures read { IfOk result (AreNumbersRead items.now (restored_in restore.now)) }
{
    match restore {
        Some(words) => read_restored(alloc, items, names, words),
        None => Ok(NamesRead::new(alloc)),
    }
}

// Reads the pairs behind `move`, if the word is there.
fn read_moves<'t>(
    alloc: Global,
    items: &NameTable<'_>,
    names: &mut NamesOnce<'t>,
    moves: &Option<Words<'t>>,
) -> Result<MovesRead, OutOfMemory>
    requires { ArePairs moves.now }
    ensures once { (seen : List (List ℕ)) → HasNames seen names.old
        → IfOk result (λ _. HasNames (seen ++ map (λ m. m.to) (moved_in moves.now)) names.new) }
    ensures read { IfOk result (AreMovesRead items.now (moved_in moves.now)) }
{
    match moves {
        Some(words) => read_moved(alloc, items, names, words),
        None => Ok(MovesRead::new(alloc)),
    }
}

// Reads a map by its words.
fn read_map<'t>(
    alloc: Global,
    weights: WeightsLine,
    items: &NameTable<'_>,
    restore: &Option<Words<'t>>,
    moves: &Option<Words<'t>>,
) -> Result<ReturnRead, OutOfMemory>
    requires { ArePairs moves.now }
    ensures { IfOk result (IsReadReturn weights items.now (map_said restore.now moves.now)) }
{
    let mut names = NamesOnce::new(alloc);
    let restored = read_restore(alloc, items, &mut names, restore)?;
    let moved = read_moves(alloc, items, &mut names, moves)?;
    Ok(ReturnRead {
        map: Some(MapText {
            restore: Numbers::from_vec(restored.numbers),
            moves: Moves::from_vec(moved.moves),
        }),
        twice: names.twice,
        unknown: is_unknown(weights, restored.unknown, moved.unknown),
        foreign: is_foreign(weights, restore.is_some(), moves.is_some()),
    })
}

// Reads a return by its words.
fn read_said<'t>(
    alloc: Global,
    weights: WeightsLine,
    items: &NameTable<'_>,
    said: &ReturnWords<'t>,
) -> Result<ReturnRead, OutOfMemory>
    requires { IsSaid said.now }
    ensures { IfOk result (IsReadReturn weights items.now (return_form said.now)) }
{
    match said {
        ReturnWords::Plain => Ok(ReturnRead::plain()),
        ReturnWords::Map { restore, moves } => read_map(alloc, weights, items, restore, moves),
    }
}

/// Reads what stands behind `return`, below a line with these weights and these items.
pub(crate) fn read_return<'t>(
    alloc: Global,
    weights: WeightsLine,
    items: &NameTable<'_>,
    words: &Words<'t>,
) -> Result<Option<ReturnRead>, OutOfMemory>
    ensures { IfOk result (IsReturnRead weights items.now words.now) }
{
    match return_words(words) {
        Some(said) => Ok(Some(read_said(alloc, weights, items, &said)?)),
        None => Ok(None),
    }
}
