//! The words of a call, in one text.
ghost use Rattle.std.specs.Prelude.{◌≡◌, [], true, map, string_bytes, IfOk};
ghost use Rattle.std.specs.List.{list_all};
ghost use Rattle.scsibus_main_c.specs.Words.{is_letter, words_in, parts_of};

use bus_base::NoMemory;
use std::alloc::Global;

// It is all ASCII.
fn is_plain(text: &[u8]) -> bool
    ensures { result ≡ list_all is_letter text.now }
{
    text.iter().all(|byte| *byte < 128)
}

// What single blanks part.
fn parts(alloc: Global, text: &[u8]) -> Result<Vec<String>, NoMemory>
    requires { list_all is_letter text.now ≡ true }
    ensures { IfOk result (λ parts. map string_bytes parts.items ≡ parts_of [] text.now) }
{
    let mut parts = Vec::new(alloc);
    let mut part = String::new(alloc);
    for byte in text {
        if *byte == b' ' {
            parts.push(part)?;
            part = String::new(alloc);
        } else {
            part.push(*byte as char)?;
        }
    }
    parts.push(part)?;
    Ok(parts)
}

/// The words that a text says.
pub fn words_in(alloc: Global, text: &[u8]) -> Result<Vec<String>, NoMemory>
    ensures { IfOk result (λ words. map string_bytes words.items ≡ words_in text.now) }
{
    if is_plain(text) {
        parts(alloc, text)
    } else {
        Ok(Vec::new(alloc))
    }
}
