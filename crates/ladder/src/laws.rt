ghost use Rattle.std.specs.Prelude.{◌≤◌, ℕ};
ghost use Rattle.document_forms.specs.Documents.{reads_as};
ghost use Rattle.document_forms.specs.Lawful.{IsDocument};
ghost use Rattle.document_forms.specs.Writing.{written};
ghost use Rattle.wpds_base.specs.Limits.{most_rungs};
ghost use Rattle.ladder.specs.Ladders.{ladder_document};

use document_forms::written_documents_read_back;

/// A ladder is a document over its own names and within the limits, and its text is read as it.
pub fn ladders_are_documents()
    ensures lawful { (n : ℕ) → n ≤ most_rungs → IsDocument (ladder_document n) }
    ensures read { (n : ℕ) → n ≤ most_rungs
        → reads_as (written (ladder_document n)) (ladder_document n) }
{
    written_documents_read_back();
}
