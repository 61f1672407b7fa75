//! Texts in a row.

ghost use Rattle.std.specs.Prelude.{◌≡◌, ℕ, List, [], ◌∷◌, ◌++◌, IfOk};
ghost use Rattle.std.specs.List.{join_with_byte};
ghost use Rattle.document_forms.specs.Names.{name};
ghost use Rattle.document_systems.specs.ValueTexts.{or_one};
ghost use Rattle.document_systems.specs.private.Rows.{IsRow};

use crate::Names;
use std::alloc::Global;
use wpds_base::OutOfMemory;
use wpds_port::Text;

/// The name with a number, or nothing where there is none.
pub(crate) fn name_of(names: &Names, number: usize) -> &[u8]
    ensures { result.now ≡ name names.now number }
{
    match names.as_slice().get(number) {
        Some(name) => name.as_bytes(),
        None => b"",
    }
}

/// Texts in a row, with a mark between each two.
#[derive(Drop)]
pub(crate) struct Row {
    mark: u8,
    text: Vec<u8>,
    some: bool,
}

impl Row {
    pub(crate) fn new(alloc: Global, mark: u8) -> Row
        ensures { IsRow mark [] result }
    {
        Row {
            mark,
            text: Vec::new(alloc),
            some: false,
        }
    }

    pub(crate) fn push(&mut self, text: &[u8]) -> Result<(), OutOfMemory>
        ensures { (mark : ℕ) (texts : List (List ℕ)) → IsRow mark texts self.old
            → IfOk result (λ _. IsRow mark (texts ++ text.now ∷ []) self.new) }
    {
        if self.some {
            self.text.push(self.mark)?;
        }
        self.text.extend_from_slice(text)?;
        self.some = true;
        Ok(())
    }

    /// Adds a text if the row has none.
    pub(crate) fn push_if_none(&mut self, text: &[u8]) -> Result<(), OutOfMemory>
        ensures { (mark : ℕ) (texts : List (List ℕ)) → IsRow mark texts self.old
            → IfOk result (λ _. IsRow mark (or_one text.now texts) self.new) }
    {
        if self.some {
            return Ok(());
        }
        self.push(text)
    }

    pub(crate) fn into_text(self) -> Text
        ensures { (mark : ℕ) (texts : List (List ℕ)) → IsRow mark texts self
            → result ≡ join_with_byte mark texts }
    {
        Text::from_vec(self.text)
    }
}
