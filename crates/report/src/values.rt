//! Addresses, values and faults in a text.

ghost use Rattle.std.specs.Prelude.{◌≡◌, ◌++◌, string_bytes, OnOk, OnErr};
ghost use Rattle.base.specs.Texts.{KeepsText};
ghost use Rattle.report.specs.States.{address_text, value_text, fault_text};

use base::write_number;
use state::{Address, Fault, Value};
use std::alloc::AllocError as NoMemory;

/// Writes an address. After want of memory the text is what it was, and maybe bytes behind it.
#[tactic(auto, using(base::proofs::Texts::kept_itself, base::proofs::Texts::kept_more))]
pub fn write_address(text: &mut String, address: Address) -> Result<(), NoMemory>
    ensures written { OnOk result (string_bytes text.new ≡ string_bytes text.old ++ address_text address) }
    ensures kept { OnErr result (KeepsText (string_bytes text.old) (string_bytes text.new)) }
{
    write_number(text, address.thread)?;
    text.push_str(":")?;
    write_number(text, address.count)
}

/// Writes a value. After want of memory the text is what it was, and maybe bytes behind it.
#[tactic(auto, using(base::proofs::Texts::kept_itself, base::proofs::Texts::kept_more))]
pub fn write_value(text: &mut String, value: Value) -> Result<(), NoMemory>
    ensures written { OnOk result (string_bytes text.new ≡ string_bytes text.old ++ value_text value) }
    ensures kept { OnErr result (KeepsText (string_bytes text.old) (string_bytes text.new)) }
{
    match value {
        Value::Int(number) => write_number(text, number),
        Value::Truth(true) => text.push_str("true"),
        Value::Truth(false) => text.push_str("false"),
        Value::Null => text.push_str("null"),
        Value::Ref(address) => write_address(text, address),
    }
}

/// The word for a fault.
pub(crate) fn fault_word(fault: Fault) -> &'static str
    ensures { result.now ≡ fault_text fault }
{
    match fault {
        Fault::Null => "null",
        Fault::Zero => "zero",
        Fault::Depth => "depth",
    }
}
