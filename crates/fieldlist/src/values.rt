// The values of fields, as text.
ghost use Rattle.std.specs.Prelude.{◌≡◌, IfOk, IfSome, string_bytes};
ghost use Rattle.fields.specs.Faults.{told};
ghost use Rattle.fieldlist.specs.Values.{value_output};

use fields::FieldFault;
use std::alloc::{AllocError, Global};
use std::fmt::Display;

// What a field holds, or its refusal.
pub(crate) fn field_value<T: Display + Drop>(
    heap: Global,
    field: Result<T, FieldFault>,
) -> Result<String, AllocError>
    ensures { IfOk result (λ t. IfSome (value_output T.output (told field)) (λ v. string_bytes t ≡ v)) }
{
    match field {
        Ok(value) => format!(in heap; "{value}"),
        Err(fault) => {
            let number = fault.number();
            format!(in heap; "REFUSED {number}")
        }
    }
}
