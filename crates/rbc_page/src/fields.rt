//! The fields of an answer's head, each written behind what stands.

ghost use Rattle.std.specs.Prelude.{◌≡◌, ◌++◌, IfOk, decimal};
ghost use Rattle.rbc_page.specs.Heads.{with_field, with_tag};

use rbc_model::Memory;

/// Writes these bytes behind a text.
///
/// # Errors
///
/// [`Memory`]: there is no room for them.
pub(crate) fn put(text: &mut Vec<u8>, bytes: &[u8]) -> Result<(), Memory>
    ensures { IfOk result (λ done. text.new.items ≡ text.old.items ++ bytes.now) }
{
    match text.extend_from_slice(bytes) {
        Ok(()) => Ok(()),
        Err(_) => Err(Memory),
    }
}

/// Writes the digits of a number behind a text.
///
/// # Errors
///
/// [`Memory`]: there is no room for it.
pub(crate) fn put_decimal(text: &mut Vec<u8>, number: u64) -> Result<(), Memory>
    ensures { IfOk result (λ done. text.new.items ≡ text.old.items ++ decimal number) }
{
    let mut digits = itoa::Buffer::new();
    put(text, digits.format(number).as_bytes())?;
    Ok(())
}

/// Writes the line of a field.
///
/// # Errors
///
/// [`Memory`]: there is no room for it.
#[tactic(auto, unfolding(crate::specs::Heads::with_field))]
pub(crate) fn put_field(text: &mut Vec<u8>, name: &[u8], value: &[u8]) -> Result<(), Memory>
    ensures { IfOk result (λ done. text.new.items ≡ with_field text.old.items name.now value.now) }
{
    put(text, name)?;
    put(text, b": ")?;
    put(text, value)?;
    put(text, b"\r\n")?;
    Ok(())
}

/// Writes the line of a field whose value is a number.
///
/// # Errors
///
/// [`Memory`]: there is no room for it.
pub(crate) fn put_number(text: &mut Vec<u8>, name: &[u8], number: u64) -> Result<(), Memory>
    ensures { IfOk result (λ done. text.new.items ≡ with_field text.old.items name.now (decimal number)) }
{
    let mut digits = itoa::Buffer::new();
    put_field(text, name, digits.format(number).as_bytes())?;
    Ok(())
}

/// Writes the line of a field whose value is a tag: a version of the centre that has begun so, in quotes.
///
/// # Errors
///
/// [`Memory`]: there is no room for it.
#[tactic(auto, unfolding(crate::specs::Heads::with_tag))]
pub(crate) fn put_tag(
    text: &mut Vec<u8>,
    name: &[u8],
    start: &[u8],
    version: u64,
) -> Result<(), Memory>
    ensures { IfOk result (λ done. text.new.items ≡ with_tag text.old.items name.now start.now version) }
{
    let mut digits = itoa::Buffer::new();
    put(text, name)?;
    put(text, b": \"")?;
    put(text, start)?;
    put(text, b"-")?;
    put(text, digits.format(version).as_bytes())?;
    put(text, b"\"\r\n")?;
    Ok(())
}
