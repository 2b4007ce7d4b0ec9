//! Fields and functions are looked up.
ghost use Rattle.std.specs.Prelude.{◌≡◌};
ghost use Rattle.type_check.specs.NamesFound.{field_of_name, function_of_name};

use edge_fields::{FieldId, FunctionId, field_named, function_named};

/// The field of a name.

pub fn find_field(name: &[u8]) -> Option<FieldId>
    ensures { result ≡ field_of_name name.now }
{
    field_named(name)
}

/// The function of a name.

pub fn find_function(name: &[u8]) -> Option<FunctionId>
    ensures { result ≡ function_of_name name.now }
{
    function_named(name)
}
