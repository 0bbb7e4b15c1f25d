//! The text of a report, put together piece by piece.
ghost use Rattle.std.specs.Prelude.{◌≡◌, ◌++◌, ◌==◌, [], map, decimal, if◌then◌else◌, OnOk};
ghost use Rattle.session_account.specs.Cells.{said};
ghost use Rattle.session_account.specs.Document.{part_text};
ghost use Rattle.session_account.specs.Forms.{sep_of, open_of, lead_of, head_of, number_text, numbers_text, row_text};

use crate::cells::Cell;
use crate::forms::Form;
use edge_io::Memory;
use itoa::Buffer;

/// Adds a piece.
pub(crate) fn put(text: &mut Vec<u8>, piece: &str) -> Result<(), Memory>
    ensures { OnOk result (text.new.items ≡ text.old.items ++ piece.now) }
{
    text.extend_from_slice(piece.as_bytes())?;
    Ok(())
}

/// Adds a number in decimal, without leading zeros.
fn put_decimal(text: &mut Vec<u8>, value: u64) -> Result<(), Memory>
    ensures { OnOk result (text.new.items ≡ text.old.items ++ decimal value) }
{
    let mut digits = Buffer::new();
    put(text, digits.format(value))
}

/// Adds a number with its name.
fn put_cell(text: &mut Vec<u8>, form: Form, cell: &Cell) -> Result<(), Memory>
    ensures { OnOk result (text.new.items ≡ text.old.items ++ number_text form (said cell.now)) }
{
    put(text, cell.name)?;
    put(text, form.mid())?;
    put_decimal(text, cell.value)
}

/// Adds the numbers of a row.
fn put_cells(text: &mut Vec<u8>, form: Form, cells: &[Cell]) -> Result<(), Memory>
    ensures { OnOk result (text.new.items ≡ text.old.items ++ numbers_text form (map said cells.now)) }
{
    let Some((first, others)) = cells.split_first() else {
        return Ok(());
    };
    put_cell(text, form, first)?;
    for cell in others {
        put(text, form.other())?;
        put_cell(text, form, cell)?;
    }
    Ok(())
}

/// Adds what opens a row.
fn put_open(text: &mut Vec<u8>, form: Form, name: &str) -> Result<(), Memory>
    ensures { OnOk result (text.new.items ≡ text.old.items ++ open_of form name.now) }
{
    match form {
        Form::Table => {
            put(text, name)?;
            put(text, " ")
        }
        Form::Json => put(text, "{\""),
    }
}

/// Adds a row.
fn put_row(text: &mut Vec<u8>, form: Form, name: &str, cells: &[Cell]) -> Result<(), Memory>
    ensures { OnOk result (text.new.items ≡ text.old.items ++ row_text form name.now (map said cells.now)) }
{
    put_open(text, form, name)?;
    put_cells(text, form, cells)?;
    put(text, form.close())
}

/// Adds a row of several of one kind, at place `i` among them.
pub(crate) fn put_item(
    text: &mut Vec<u8>,
    form: Form,
    name: &str,
    i: usize,
    cells: &[Cell],
) -> Result<(), Memory>
    ensures { OnOk result (text.new.items ≡ text.old.items ++ ((if i == 0 then [] else sep_of form) ++ row_text form name.now (map said cells.now))) }
{
    if i > 0 {
        put(text, form.sep())?;
    }
    put_row(text, form, name, cells)
}

/// Adds a part that is one row, with what parts it from the next.
pub(crate) fn put_part(
    text: &mut Vec<u8>,
    form: Form,
    name: &str,
    cells: &[Cell],
) -> Result<(), Memory>
    ensures { OnOk result (text.new.items ≡ text.old.items ++ part_text form name.now (map said cells.now)) }
{
    put_lead(text, form, name, "\":")?;
    put_row(text, form, name, cells)?;
    put(text, form.sep())
}

/// Adds what stands in front of a part that is rows of one kind.
pub(crate) fn put_head(text: &mut Vec<u8>, form: Form, name: &str) -> Result<(), Memory>
    ensures { OnOk result (text.new.items ≡ text.old.items ++ head_of form name.now) }
{
    put_lead(text, form, name, "\":[")
}

/// Adds a part's name in quotes with what follows it, in JSON.
fn put_lead(text: &mut Vec<u8>, form: Form, name: &str, after: &str) -> Result<(), Memory>
    ensures { OnOk result (text.new.items ≡ text.old.items ++ lead_of form name.now after.now) }
{
    match form {
        Form::Table => Ok(()),
        Form::Json => {
            put(text, "\"")?;
            put(text, name)?;
            put(text, after)
        }
    }
}
