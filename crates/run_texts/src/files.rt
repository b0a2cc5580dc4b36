ghost use Rattle.std.specs.Prelude.{◌≡◌, ◌++◌, IfOk, codes, string_bytes};
ghost use Rattle.run_texts.specs.Files.{words_text, missing_text, too_long_text, device_text};

use base_core::NoMemory;
use std::alloc::Global;

/// The line for words that are in no form of a call.
pub fn words_text(alloc: Global) -> Result<String, NoMemory>
    ensures { IfOk result (λ t. string_bytes t ≡ words_text) }
{
    String::from_str(alloc, "WORDS REFUSED\n")
}

/// The line for a file that is not there.
pub fn missing_text(alloc: Global, name: &str) -> Result<String, NoMemory>
    ensures { IfOk result (λ t. string_bytes t ≡ missing_text name.now) }
{
    named(alloc, "REFUSED Missing ", name)
}

/// The line for a file that is too long.
pub fn too_long_text(alloc: Global, name: &str) -> Result<String, NoMemory>
    ensures { IfOk result (λ t. string_bytes t ≡ too_long_text name.now) }
{
    named(alloc, "REFUSED TooLong ", name)
}

/// The line for a file of which a read failed.
pub fn device_text(alloc: Global, name: &str) -> Result<String, NoMemory>
    ensures { IfOk result (λ t. string_bytes t ≡ device_text name.now) }
{
    named(alloc, "DEVICE FAULT ", name)
}

/// A line that ends with a name.
fn named(alloc: Global, front: &str, name: &str) -> Result<String, NoMemory>
    ensures { IfOk result (λ t. string_bytes t ≡ front.now ++ name.now ++ codes "\n") }
{
    let mut text = String::from_str(alloc, front)?;
    text.push_str(name)?;
    text.push_str("\n")?;
    Ok(text)
}
