ghost use Rattle.std.specs.Prelude.{◌≡◌, IfOk};
ghost use Rattle.serde_json.specs.Errors.{IsMemory};
ghost use Rattle.serde_json.specs.View.{view};
ghost use Rattle.config_read.specs.declared.fault.Cause.TheVariants as cause;
ghost use Rattle.config_read.specs.declared.fault.ConfigFault.TheVariants as fault;
ghost use Rattle.config_read.specs.Places.{whole};
ghost use Rattle.config_read.specs.Refusals.{IsAnswerOf, Tells};
ghost use Rattle.config_read.specs.Reads.{IsJson, bytes_table, ReadsBytes, given_of};

use crate::document::{Document, document_of};
use crate::fault::{Cause, ConfigFault};
use crate::refusals::refusal;
use serde_json::{Category, Error, Value};
use std::alloc::Global;

/// The most bytes of a document.
const MAX_BYTES: usize = 1_048_576;

/// What is told of bytes that give no JSON value.
fn fault_of(alloc: Global, error: &Error) -> ConfigFault
    ensures memory { IsMemory error.now → result ≡ fault.Memory }
    ensures bad { (¬ (IsMemory error.now)) → Tells result whole cause.NotJson }
{
    if error.classify() == Category::Memory {
        ConfigFault::Memory
    } else {
        refusal(alloc, b"/", Cause::NotJson)
    }
}

/// The JSON value that the bytes are.
pub(crate) fn value_of(alloc: Global, bytes: &[u8]) -> Result<Value, ConfigFault>
    ensures table { IsAnswerOf result (bytes_table bytes.now) }
    ensures value { IfOk result (λ value. IsJson bytes.now (view value)) }
{
    if MAX_BYTES < bytes.len() {
        return Err(refusal(alloc, b"/", Cause::TooLong));
    }
    match Value::from_slice(alloc, bytes) {
        Ok(value) => Ok(value),
        Err(error) => Err(fault_of(alloc, &error)),
    }
}

/// What the bytes of a document stand for, or what of them is refused first.
pub fn read_document(alloc: Global, bytes: &[u8]) -> Result<Document, ConfigFault>
    ensures reads { ReadsBytes bytes.now (given_of result) }
{
    let value = match value_of(alloc, bytes) {
        Ok(value) => value,
        Err(fault) => return Err(fault),
    };
    document_of(alloc, &value)
}
