//! What variables become by a copy.

ghost use Rattle.std.specs.Prelude.{◌≡◌, ◌<◌, ◌≤◌, ◌^◌, ℕ, List, [], ◌∷◌, ◌++◌, cond, true, false, length, IfOk, IfSome, MatchOption, is_none, Option, Some, None, ℤ, bit_or, option_map, flat_map, bytes_eq};
ghost use Rattle.wpds_port.specs.declared.Mark.TheVariants.{Equal};
ghost use Rattle.wpds_port.specs.declared.Word.TheVariants.{Name, Number as Digits, Mark as Sign};
ghost use Rattle.wpds_base.specs.Limits.{most_copied};
ghost use Rattle.document_forms.specs.Names.{is_among, number_in};
ghost use Rattle.document_forms.specs.Words.{begins_pair};
ghost use Rattle.document_forms.specs.Weights.{PartForm, OfVariable, OfNumber, PairForm, Parts, VaryingParts, Undefined, PairsForm, parts_of, copy_of};
ghost use Rattle.document_forms.specs.Kinds.{is_wide_part};
ghost use Rattle.document_forms.specs.Documents.{constants_in, meet_of};
ghost use Rattle.rule_reader.specs.WeightReads.{IsRead, IsReadAs};
ghost use Rattle.rule_reader.specs.private.PairTexts.{is_whole, begins_number, up_to_pair, from_pair, is_at_pair, some_pairs, parts_in, parts_behind};
ghost use Rattle.rule_reader.specs.private.FormReads.{part_form, constant_more, HasParts, HasPairs, ArePartsOf};

use super::{WeightFaults, WeightRead};
use crate::digits::number;
use crate::name_reads::NamesOnce;
use crate::names::NameTable;
use document_forms::{FormText, FormTexts, VariableForm, WeightText};
use std::alloc::Global;
use wpds_base::OutOfMemory;
use wpds_port::{Lexeme, Mark, Words};

// A part of what a variable becomes.
#[derive(Clone, Copy)]
enum Part<'t> {
    Variable(&'t [u8]),
    Number { negative: bool, digits: &'t [u8] },
}

// What a variable becomes, as far as its parts were read.
#[derive(Clone, Copy)]
struct PartsRead {
    form: FormText,
    unknown: bool,
    wide: bool,
}

impl PartsRead {
    fn new(form: FormText) -> PartsRead
        ensures { result ≡ record { form = form; unknown = false; wide = false } }
    {
        PartsRead {
            form,
            unknown: false,
            wide: false,
        }
    }

    fn add(&mut self, items: &NameTable<'_>, part: Part<'_>)
        ensures { (done : List PartForm) → HasParts items.now (Parts done) self.old
            → HasParts items.now (Parts (done ++ part_form part.entry ∷ [])) self.new }
    {
        match part {
            Part::Variable(name) => self.add_variable(items, name),
            Part::Number { negative, digits } => self.add_number(negative, digits),
        }
    }

    fn add_variable(&mut self, items: &NameTable<'_>, name: &[u8])
        ensures { (done : List PartForm) → HasParts items.now (Parts done) self.old
            → HasParts items.now (Parts (done ++ OfVariable name.now ∷ [])) self.new }
    {
        match items.number_of(name) {
            Some(variable) => self.form = with_variable(self.form, variable),
            None => self.unknown = true,
        }
    }

    fn add_number(&mut self, negative: bool, digits: &[u8])
        ensures { (items : List (List ℕ)) (done : List PartForm)
            → HasParts items (Parts done) self.old
            → HasParts items (Parts (done ++ OfNumber negative digits.now ∷ [])) self.new }
    {
        match whole(negative, digits) {
            Some(constant) => self.form = with_constant(self.form, constant),
            None => self.wide = true,
        }
    }
}

// The pairs that were read so far.
#[derive(Drop)]
struct Forms<'t> {
    forms: Vec<VariableForm>,
    names: NamesOnce<'t>,
    unknown: bool,
    wide: bool,
}

impl<'t> Forms<'t> {
    fn new(alloc: Global) -> Forms<'t>
        ensures { (items : List (List ℕ)) → HasPairs items [] result }
    {
        Forms {
            forms: Vec::new(alloc),
            names: NamesOnce::new(alloc),
            unknown: false,
            wide: false,
        }
    }

    fn add(
        &mut self,
        items: &NameTable<'_>,
        name: &'t [u8],
        parts: PartsRead,
    ) -> Result<(), OutOfMemory>
        ensures { (done : List PairForm) (p : PairForm) → HasPairs items.now done self.old
            → p.variable ≡ name.now → HasParts items.now p.parts parts
            → IfOk result (λ _. HasPairs items.now (done ++ p ∷ []) self.new) }
    {
        self.names.add(name)?;
        self.unknown |= parts.unknown;
        self.wide |= parts.wide;
        match items.number_of(name) {
            Some(variable) => self.forms.push(VariableForm {
                variable,
                form: parts.form,
            })?,
            None => self.unknown = true,
        }
        Ok(())
    }

    fn into_read(self) -> WeightRead
        ensures { (items : List (List ℕ)) (ps : List PairForm) → HasPairs items ps self.entry
            → IsReadAs items (PairsForm ps) result }
    {
        WeightRead {
            value: WeightText::Forms(FormTexts::from_vec(self.forms)),
            faults: WeightFaults {
                unknown: self.unknown,
                unlawful: self.names.twice || self.wide,
                deep: false,
            },
        }
    }
}

/// Reads what variables become.
pub(crate) fn read_forms<'t>(
    alloc: Global,
    items: &NameTable<'_>,
    words: &Words<'t>,
) -> Result<Option<WeightRead>, OutOfMemory>
    ensures { IfOk result (IsRead items.now (copy_of words.now)) }
{
    let mut forms = Forms::new(alloc);
    let mut left = words.reborrow();
    loop {
        let Some((name, text)) = first_target(&left) else {
            return Ok(None);
        };
        let Some((parts, rest)) = read_parts(items, &text) else {
            return Ok(None);
        };
        forms.add(items, name, parts)?;
        match rest.split_first() {
            Some(_) => left = rest,
            None => return Ok(Some(forms.into_read())),
        }
    }
}

// The variable of the pair that the words begin with, and the words behind its `=`.
fn first_target<'t>(words: &Words<'t>) -> Option<(&'t [u8], Words<'t>)>
    ensures { MatchOption result (begins_pair words.now ≡ false)
        (λ p. words.now ≡ Name p.0.now ∷ Sign Equal ∷ p.1) }
{
    let (Lexeme::Name(name), rest) = words.split_first()? else {
        return None;
    };
    match rest.split_first() {
        Some((Lexeme::Mark(Mark::Equal), text)) => Some((name, text)),
        _ => None,
    }
}

// Whether a pair or nothing comes.
fn at_pair(words: &Words<'_>) -> bool
    ensures { result ≡ is_at_pair words.now }
{
    words.split_first().is_none() || begins_pair(words)
}

// Whether a pair comes.
fn begins_pair(words: &Words<'_>) -> bool
    ensures { result ≡ begins_pair words.now }
{
    first_target(words).is_some()
}

// What a variable becomes, up to the next pair, and the words from there on.
fn read_parts<'t>(items: &NameTable<'_>, words: &Words<'t>) -> Option<(PartsRead, Words<'t>)>
    ensures parts { MatchOption result (parts_of (up_to_pair words.now) ≡ None)
        (λ p. ArePartsOf items.now (up_to_pair words.now) p.0) }
    ensures rest { IfSome result (λ p. p.1 ≡ from_pair words.now) }
{
    match whole_part(words) {
        Some(whole) => Some(whole),
        None => read_meet(items, words),
    }
}

// `?` or `undef`, where it is all that comes up to the next pair, and the words from there on.
fn whole_part<'t>(words: &Words<'t>) -> Option<(PartsRead, Words<'t>)>
    ensures parts { MatchOption result (is_whole (up_to_pair words.now) ≡ false)
        (λ p. (items : List (List ℕ)) → ArePartsOf items (up_to_pair words.now) p.0) }
    ensures rest { IfSome result (λ p. p.1 ≡ from_pair words.now) }
{
    let Some((word, rest)) = words.split_first() else {
        return None;
    };
    if !at_pair(&rest) {
        return None;
    }
    if word.is(Lexeme::Mark(Mark::Question)) {
        return Some((PartsRead::new(FormText::Varying), rest));
    }
    if word.is(Lexeme::Name(b"undef")) {
        return Some((PartsRead::new(nothing()), rest));
    }
    None
}

// The form of what has no part.
fn nothing() -> FormText
    ensures { result ≡ FormText.Meet None 0 }
{
    FormText::Meet {
        constant: None,
        from: 0,
    }
}

// The meet of the parts up to the next pair, and the words from there on.
fn read_meet<'t>(items: &NameTable<'_>, words: &Words<'t>) -> Option<(PartsRead, Words<'t>)>
    ensures parts { MatchOption result (parts_in words.now ≡ None)
        (λ p. (ps : List PartForm) × (parts_in words.now ≡ Some ps)
        × HasParts items.now (Parts ps) p.0) }
    ensures rest { IfSome result (λ p. p.1 ≡ from_pair words.now) }
{
    let mut parts = PartsRead::new(nothing());
    let mut left = words.reborrow();
    loop {
        let (part, rest) = first_part(&left)?;
        parts.add(items, part);
        match rest.split_first() {
            Some((Lexeme::Mark(Mark::Comma), behind)) => left = behind,
            _ => return at_pair(&rest).then_some((parts, rest)),
        }
    }
}

// The first part, and the words behind it.
fn first_part<'t>(words: &Words<'t>) -> Option<(Part<'t>, Words<'t>)>
    ensures parts { MatchOption result (parts_in words.now ≡ None)
        (λ p. parts_in words.now ≡ parts_behind (part_form p.0) p.1) }
    ensures rest { IfSome result (λ p. from_pair words.now ≡ from_pair p.1) }
    ensures shorter { IfSome result (λ p. length p.1 < length words.now) }
{
    if begins_pair(words) {
        return None;
    }
    match words.split_first() {
        Some((Lexeme::Name(name), rest)) => Some((Part::Variable(name), rest)),
        Some((Lexeme::Number(digits), rest)) => Some((
            Part::Number {
                negative: false,
                digits,
            },
            rest,
        )),
        Some((Lexeme::Mark(Mark::Minus), rest)) => negative_part(&rest),
        _ => None,
    }
}

// The number behind a minus, and the words behind it.
fn negative_part<'t>(words: &Words<'t>) -> Option<(Part<'t>, Words<'t>)>
    ensures parts { MatchOption result (begins_number words.now ≡ false)
        (λ p. (n : List ℕ) × (words.now ≡ Digits n ∷ p.1) × (part_form p.0 ≡ OfNumber true n)) }
{
    match words.split_first() {
        Some((Lexeme::Number(digits), rest)) => Some((
            Part::Number {
                negative: true,
                digits,
            },
            rest,
        )),
        _ => None,
    }
}

// The number, if 64 bits with a sign hold it.
fn whole(negative: bool, digits: &[u8]) -> Option<i64>
    ensures wide { is_none result ≡ is_wide_part (OfNumber negative digits.now) }
    ensures value { IfSome result (λ n. constants_in (OfNumber negative digits.now) ≡ n ∷ []) }
{
    let number = i128::from(number(digits)?);
    let signed = if negative { -number } else { number };
    if i128::from(i64::MIN) <= signed && signed <= i128::from(i64::MAX) {
        Some(signed as i64)
    } else {
        None
    }
}

// The meet with a constant more.
fn with_constant(form: FormText, constant: i64) -> FormText
    ensures { (constants : Option (Option ℤ)) (bits : ℕ) → form ≡ meet_of constants bits
        → result ≡ meet_of (constant_more constants constant) bits }
{
    match form {
        FormText::Meet {
            constant: None,
            from,
        } => FormText::Meet {
            constant: Some(constant),
            from,
        },
        FormText::Meet {
            constant: Some(first),
            from,
        } if first == constant => FormText::Meet {
            constant: Some(constant),
            from,
        },
        _ => FormText::Varying,
    }
}

// The meet with a variable more.
fn with_variable(form: FormText, variable: u32) -> FormText
    ensures { (constants : Option (Option ℤ)) (bits : ℕ) → form ≡ meet_of constants bits
        → variable < 64 → result ≡ meet_of constants (bit_or bits (2 ^ variable)) }
{
    match form {
        FormText::Meet { constant, from } => FormText::Meet {
            constant,
            from: from | 1u64.checked_shl(variable).unwrap_or(0),
        },
        FormText::Varying => FormText::Varying,
    }
}
