//! Return maps.

ghost use Rattle.std.specs.Prelude.{◌≡◌, ◌++◌, OnOk, map, codes};
ghost use Rattle.document_forms.specs.Names.{name};
ghost use Rattle.document_forms.specs.Writing.{headed, move_text, map_texts};
ghost use Rattle.document_writer.specs.private.Rows.{behind_blanks};

use crate::names::{push_name, push_names};
use crate::rows::push;
use document_forms::{MapText, Move};
use wpds_base::OutOfMemory;
use wpds_port::Text;

// Adds a move.
fn push_move(out: &mut Vec<u8>, names: &[Text], step: Move) -> Result<(), OutOfMemory>
    ensures { OnOk result (out.new.items ≡ out.old.items ++ move_text names.now step) }
{
    push_name(out, names, step.to)?;
    push(out, b"=")?;
    push_name(out, names, step.from)
}

// Adds what is restored, if something is.
fn push_restore(out: &mut Vec<u8>, names: &[Text], restore: &[u32]) -> Result<(), OutOfMemory>
    ensures { OnOk result (out.new.items ≡ out.old.items
        ++ behind_blanks (headed (codes "restore") (map (name names.now) restore.now))) }
{
    if restore.is_empty() {
        return Ok(());
    }
    push(out, b" restore")?;
    push_names(out, names, restore)
}

// Adds moves, a blank before each.
fn push_steps(out: &mut Vec<u8>, names: &[Text], moves: &[Move]) -> Result<(), OutOfMemory>
    ensures { OnOk result (
        out.new.items ≡ out.old.items ++ behind_blanks (map (move_text names.now) moves.now)) }
{
    for step in moves {
        push(out, b" ")?;
        push_move(out, names, *step)?;
    }
    Ok(())
}

// Adds what is moved, if something is.
fn push_moves(out: &mut Vec<u8>, names: &[Text], moves: &[Move]) -> Result<(), OutOfMemory>
    ensures { OnOk result (out.new.items ≡ out.old.items
        ++ behind_blanks (headed (codes "move") (map (move_text names.now) moves.now))) }
{
    if moves.is_empty() {
        return Ok(());
    }
    push(out, b" move")?;
    push_steps(out, names, moves)
}

/// Adds a return map, or nothing for the plain one.
pub(crate) fn push_map(
    out: &mut Vec<u8>,
    names: &[Text],
    map: &Option<MapText>,
) -> Result<(), OutOfMemory>
    ensures { OnOk result (
        out.new.items ≡ out.old.items ++ behind_blanks (map_texts names.now map.now)) }
{
    match map {
        None => Ok(()),
        Some(map) => {
            push(out, b" return")?;
            push_restore(out, names, map.restore.as_slice())?;
            push_moves(out, names, map.moves.as_slice())
        }
    }
}
