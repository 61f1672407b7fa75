//! The facts that a weight generates and kills.

ghost use Rattle.std.specs.Prelude.{◌≡◌, ◌<◌, ℕ, List, [], ◌∷◌, ◌++◌, length, IfOk, MatchOption, None, option_map};
ghost use Rattle.document_forms.specs.Weights.{SignForm, SignsForm, genkill_of, signs};
ghost use Rattle.rule_reader.specs.WeightReads.{IsRead, IsReadAs};
ghost use Rattle.rule_reader.specs.private.FactReads.{HasSigns, some_signs, sign_form};

use super::{WeightFaults, WeightRead};
use crate::name_reads::NamesOnce;
use crate::names::NameTable;
use document_forms::{FactSign, FactSigns, WeightText};
use std::alloc::Global;
use wpds_base::OutOfMemory;
use wpds_port::{Lexeme, Mark, Words};

// `+FACT` or `-FACT`.
#[derive(Clone, Copy)]
struct Sign<'t> {
    plus: bool,
    fact: &'t [u8],
}

// The facts that were read so far.
#[derive(Drop)]
struct Facts<'t> {
    signs: Vec<FactSign>,
    names: NamesOnce<'t>,
    unknown: bool,
}

impl<'t> Facts<'t> {
    fn new(alloc: Global) -> Facts<'t>
        ensures { (items : List (List ℕ)) → HasSigns items [] result }
    {
        Facts {
            signs: Vec::new(alloc),
            names: NamesOnce::new(alloc),
            unknown: false,
        }
    }

    fn add(&mut self, items: &NameTable<'_>, sign: Sign<'t>) -> Result<(), OutOfMemory>
        ensures { (done : List SignForm) → HasSigns items.now done self.old
            → IfOk result (λ _. HasSigns items.now (done ++ sign_form sign.entry ∷ []) self.new) }
    {
        self.names.add(sign.fact)?;
        match items.number_of(sign.fact) {
            Some(fact) => self.signs.push(FactSign {
                fact,
                plus: sign.plus,
            })?,
            None => self.unknown = true,
        }
        Ok(())
    }

    fn into_read(self) -> WeightRead
        ensures { (items : List (List ℕ)) (ss : List SignForm) → HasSigns items ss self.entry
            → IsReadAs items (SignsForm ss) result }
    {
        WeightRead {
            value: WeightText::Facts(FactSigns::from_vec(self.signs)),
            faults: WeightFaults {
                unknown: self.unknown,
                unlawful: self.names.twice,
                deep: false,
            },
        }
    }
}

/// Reads facts that are generated and killed.
pub(crate) fn read_facts<'t>(
    alloc: Global,
    items: &NameTable<'_>,
    words: &Words<'t>,
) -> Result<Option<WeightRead>, OutOfMemory>
    ensures { IfOk result (IsRead items.now (genkill_of words.now)) }
{
    let mut facts = Facts::new(alloc);
    let mut left = words.reborrow();
    loop {
        let Some((sign, rest)) = first_sign(&left) else {
            return Ok(None);
        };
        facts.add(items, sign)?;
        match rest.split_first() {
            Some(_) => left = rest,
            None => return Ok(Some(facts.into_read())),
        }
    }
}

// The first sign and its fact, and the words behind them.
fn first_sign<'t>(words: &Words<'t>) -> Option<(Sign<'t>, Words<'t>)>
    ensures signs { MatchOption result (some_signs words.now ≡ None)
        (λ p. some_signs words.now ≡ option_map (λ ss. sign_form p.0 ∷ ss) (signs p.1)) }
    ensures shorter { MatchOption result (words.now ≡ words.now)
        (λ p. length p.1 < length words.now) }
{
    let (word, rest) = words.split_first()?;
    let plus = match word {
        Lexeme::Mark(Mark::Plus) => true,
        Lexeme::Mark(Mark::Minus) => false,
        _ => return None,
    };
    match rest.split_first() {
        Some((Lexeme::Name(fact), behind)) => Some((Sign { plus, fact }, behind)),
        _ => None,
    }
}
