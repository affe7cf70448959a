//! The bytes of calls, written into a buffer that grows.

ghost use Rattle.std.specs.Prelude.{◌≡◌, ◌∷◌, ◌++◌, OnOk};
ghost use Rattle.fields.specs.Bytes.{field_bytes, all_fields};
ghost use Rattle.wire.specs.Said.{kind_number};

use std::alloc::AllocError;
use wire::CallKind;

/// Appends the eight bytes of each field.
pub fn put_fields(out: &mut Vec<u8>, fields: &[u64]) -> Result<(), AllocError>
    ensures { OnOk result (out.new.items ≡ out.old.items ++ all_fields fields.now) }
{
    for field in fields {
        out.extend_from_slice(&field.to_le_bytes())?;
    }
    Ok(())
}

/// Leaves a call's number and its fields.
pub fn put_row(out: &mut Vec<u8>, kind: CallKind, fields: &[u64]) -> Result<(), AllocError>
    ensures { OnOk result (out.new.items ≡ kind_number kind ∷ all_fields fields.now) }
{
    out.clear();
    out.push(kind.into())?;
    put_fields(out, fields)
}
